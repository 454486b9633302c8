//! Drawn Reed-Solomon words, restored many times over.

use crate::sums::sum_with;
use lr_rs::{RsScratch, encode, restore};
use lr_trials_coding::windows::next_state;
use std::alloc::{AllocError, Global};
use std::io;

/// How many words are drawn; the rounds go through them again and again.
const WORDS: usize = 16;

/// Draws a word: encoded information, in which `wrong` bytes are changed, each fifteen places after the one before.
fn drawn_word(start: u64, wrong: usize) -> [u8; 255] {
    let mut state = start;
    let mut information = [0u8; 223];
    for place in 0..223usize {
        state = next_state(state);
        information[place] = (state >> 56) as u8;
    }
    let mut word = [0u8; 255];
    encode(&information, &mut word);
    state = next_state(state);
    let first = (state >> 56) as usize;
    for k in 0..wrong {
        state = next_state(state);
        let change = 1 + ((state >> 56) % 255) as u8;
        word[(first % 255).wrapping_add(k.wrapping_mul(15)) % 255] ^= change;
    }
    word
}

/// Draws all words.
fn drawn_words(alloc: Global, wrong: usize) -> Result<Vec<[u8; 255]>, AllocError> {
    let mut words = Vec::new(alloc);
    let mut start = 1u64;
    for _ in 0..WORDS {
        words.push(drawn_word(start, wrong))?;
        start = next_state(start) ^ 0x5555;
    }
    Ok(words)
}

/// Restores the words, round after round, and gives a checksum of the answers and of a byte of each
/// word.
fn checksum_of(words: &[[u8; 255]], rounds: u32) -> u64 {
    let mut scratch = RsScratch::new();
    let mut mix = 0u64;
    if words.len() < WORDS {
        return mix;
    }
    for round in 0..rounds {
        let mut word = words[round as usize % WORDS];
        let answer = match restore(&mut word, &mut scratch) {
            Ok(changed) => changed,
            Err(_) => 255,
        };
        let seen = word[round as usize % 255];
        mix = sum_with(mix, u64::from(answer));
        mix = sum_with(mix, u64::from(seen));
    }
    mix
}

/// Restores words with `wrong` wrong bytes, and prints what was answered.
fn restore_words(rt: &(impl Print + AllocGlobal), wrong: usize, rounds: u32) -> io::Result<()> {
    let words = drawn_words(rt.alloc(), wrong)?;
    let mix = checksum_of(&words, rounds);
    println!(rt; "rs{wrong} {rounds} {mix:016x}")
}

/// The numbers of wrong bytes that a name stands for.
fn wrong_of(name: &str) -> &'static [usize] {
    match name {
        "rs0" => &[0],
        "rs1" => &[1],
        "rs8" => &[8],
        "rs16" => &[16],
        "rs17" => &[17],
        "rs" | "all" => &[0, 1, 8, 16, 17],
        _ => &[],
    }
}

/// Runs each name that this one stands for.
pub fn run(rt: &(impl Print + AllocGlobal), name: &str, rounds: u32) -> io::Result<()> {
    for wrong in wrong_of(name) {
        restore_words(rt, *wrong, rounds)?;
    }
    Ok(())
}
