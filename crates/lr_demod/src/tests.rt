//! What no clause says: symbols come out of a signal, and which settings and heads are refused.

use crate::circle::turned;
use crate::decibels::decibels;
use crate::form::take_samples;
use crate::imbalance::{Imbalance, Moments};
use crate::pulse::pulse;
use crate::wave::WaveFault;
use crate::{BLOCK_SAMPLES, Demodulator, Form, Refusal, Settings, is_wave, wave_head};
use std::alloc::{AllocError, Global};
use std::num::{f32_to_bits_with_nan, nearest_f64_to_f32_with_nan, nearest_usize_to_f64};

const SYMBOLS: usize = 16_384;

const RATE: f64 = 4000.0;

const SAMPLES: f64 = 4.0;

/// The symbols on each side of a sample whose pulses reach it here.
const REACH: usize = 11;

/// Draws levels of 1 and -1 (a linear congruence, of which the highest bit is taken).
fn draw(levels: &mut [f64]) {
    let mut state = 1u32;
    for k in 0..levels.len() {
        state = state.wrapping_mul(1664525).wrapping_add(1013904223);
        levels[k] = if state >> 31 == 0 { 1.0 } else { -1.0 };
    }
}

fn drawn_levels(alloc: Global) -> Result<Vec<f64>, AllocError> {
    let mut levels = vec![in alloc; 1.0f64; SYMBOLS]?;
    draw(&mut levels);
    Ok(levels)
}

/// The real signal at this sample.
fn level_at(levels: &[f64], sample: usize) -> f64 {
    let t = nearest_usize_to_f64(sample) / SAMPLES;
    let middle = sample / 4;
    let mut value = 0.0;
    for k in middle.saturating_sub(REACH)..middle.saturating_add(REACH) {
        if k < levels.len() {
            value += levels[k] * pulse(t - nearest_usize_to_f64(k), 0.4);
        }
    }
    value
}

fn push_float(bytes: &mut Vec<u8>, value: f64) -> Result<(), AllocError> {
    let bits = f32_to_bits_with_nan(nearest_f64_to_f32_with_nan(value));
    bytes.extend_from_slice(&bits.to_le_bytes())
}

/// The signal as floats, with its carrier `each` turns a sample from the middle.
fn recording(alloc: Global, levels: &[f64], each: f64) -> Result<Vec<u8>, AllocError> {
    let mut bytes = Vec::new(alloc);
    for sample in 0..4 * SYMBOLS {
        let level = 0.1 * level_at(levels, sample);
        let (cosine, sine) = turned(nearest_usize_to_f64(sample) * each);
        push_float(&mut bytes, level * cosine)?;
        push_float(&mut bytes, level * sine)?;
    }
    Ok(bytes)
}

/// How many soft symbols agree with the levels from `lag` on, less those that don't, of at most `count`.
fn agreement(levels: &[f64], soft: &[i8], lag: usize, count: usize) -> i64 {
    let mut sum = 0i64;
    for k in 0..count.min(soft.len()) {
        let at = k.saturating_add(lag);
        if at < levels.len() {
            let agrees = (levels[at] > 0.0) == (soft[k] > 0);
            sum = sum.saturating_add(if agrees { 1 } else { -1 });
        }
    }
    sum
}

/// The mean height of values.
fn mean_height(values: &[i8]) -> f64 {
    let mut sum = 0usize;
    for k in 0..values.len() {
        sum = sum.saturating_add(values[k].unsigned_abs() as usize);
    }
    nearest_usize_to_f64(sum) / nearest_usize_to_f64(values.len().max(1))
}

/// The most symbols that agree with the levels, by the place of the first one and the polarity.
fn best_agreement(levels: &[f64], soft: &[i8], count: usize) -> i64 {
    let mut best = 0i64;
    for lag in 0..32usize {
        let sum = agreement(levels, soft, lag, count);
        best = best.max(sum).max(0i64.saturating_sub(sum));
    }
    best
}

fn bytes_of_float(count: usize, bits: u32, alloc: Global) -> Result<Vec<u8>, AllocError> {
    let mut bytes = Vec::new(alloc);
    for _ in 0..count {
        bytes.extend_from_slice(&bits.to_le_bytes())?;
    }
    Ok(bytes)
}

#[test]
fn a_signal_becomes_its_symbols(rt: HostRuntime) -> Result<(), AllocError> {
    let alloc = rt.alloc();
    let levels = drawn_levels(alloc)?;
    let bytes = recording(alloc, &levels, 0.003)?;
    let mut demodulator = Demodulator::new(alloc, &Settings::usual(RATE, 1000.0))?;
    let mut soft = Vec::new(alloc);
    demodulator.push(Form::F32, &bytes, &mut soft)?;
    let reception = demodulator.take_reception();
    assert_eq!(rt; reception.samples, 65536);
    assert!(rt;
        reception.level > -20.2 && reception.level < -19.8,
        "an amplitude of 0.1"
    );
    assert!(rt;
        best_agreement(&levels, &soft, 16000) > 15990,
        "each symbol is there"
    );
    let Some(lock) = reception.lock else {
        panic!(rt; "no lock");
    };
    assert!(rt; (lock.carrier - 12.0).abs() < 0.1, "0.003 of 4,000 Hz");
    assert!(rt; lock.es_n0 > 20.0, "no noise");
    assert!(rt;
        lock.clock > -5.0 && lock.clock < 5.0,
        "no error of the clock"
    );
    Ok(())
}

#[test]
fn a_clean_signal_stands_in_phase(rt: HostRuntime) -> Result<(), AllocError> {
    let alloc = rt.alloc();
    let levels = drawn_levels(alloc)?;
    let bytes = recording(alloc, &levels, 0.003)?;
    let mut demodulator = Demodulator::new(alloc, &Settings::usual(RATE, 1000.0))?;
    let mut soft = Vec::new(alloc);
    demodulator.push(Form::F32, &bytes, &mut soft)?;
    let height = mean_height(&soft);
    assert!(rt; height > 30.0 && height < 34.0, "the usual scale is 32");
    assert!(rt; mean_height(demodulator.across()) < 2.0);
    Ok(())
}

#[test]
fn it_locks_again_after_numbers_that_are_no_samples(rt: HostRuntime) -> Result<(), AllocError> {
    let alloc = rt.alloc();
    let levels = drawn_levels(alloc)?;
    let bytes = recording(alloc, &levels, 0.003)?;
    let mut demodulator = Demodulator::new(alloc, &Settings::usual(RATE, 1000.0))?;
    let mut soft = Vec::new(alloc);
    for bits in [0x7fc0_0000u32, 0x7f80_0000, 0xff7f_ffff, 0x4973_0000] {
        let absurd = bytes_of_float(65536, bits, alloc)?;
        demodulator.push(Form::F32, &bytes, &mut soft)?;
        demodulator.push(Form::F32, &absurd, &mut soft)?;
        demodulator.push(Form::F32, &bytes, &mut soft)?;
        assert!(rt; demodulator.is_locked(), "after {bits}");
    }
    Ok(())
}

#[test]
fn noise_gives_no_symbol(rt: HostRuntime) -> Result<(), AllocError> {
    let alloc = rt.alloc();
    let mut bytes = vec![in alloc; 0u8; 131072]?;
    let mut state = 7u32;
    for k in 0..bytes.len() {
        state = state.wrapping_mul(1664525).wrapping_add(1013904223);
        bytes[k] = (state >> 24) as u8;
    }
    let mut soft = Vec::new(alloc);
    let mut demodulator = Demodulator::new(alloc, &Settings::usual(RATE, 1000.0))?;
    for form in [Form::U8, Form::S8, Form::S16] {
        demodulator.push(form, &bytes, &mut soft)?;
    }
    assert_eq!(rt; soft.len(), 0);
    Ok(())
}

#[test]
fn settings_that_make_no_sense_are_refused(rt: HostRuntime) {
    let usual = Settings::usual(2400000.0, 927000.0);
    let none = 0.0 / 0.0;
    assert_eq!(rt; usual.refusal(), None);
    for (settings, refusal) in [
        (
            Settings {
                rate: none,
                ..usual
            },
            Refusal::Rate,
        ),
        (Settings { rate: 0.0, ..usual }, Refusal::Rate),
        (
            Settings {
                rate: 1.0 / 0.0,
                ..usual
            },
            Refusal::Rate,
        ),
        (
            Settings {
                symbols: -1.0,
                ..usual
            },
            Refusal::Symbols,
        ),
        (
            Settings {
                rate: 1000000.0,
                ..usual
            },
            Refusal::TooFewSamples,
        ),
        (
            Settings {
                symbols: 100000.0,
                ..usual
            },
            Refusal::TooManySamples,
        ),
        (
            Settings {
                roll_off: 1.1,
                ..usual
            },
            Refusal::RollOff,
        ),
        (
            Settings {
                scale: 128.0,
                ..usual
            },
            Refusal::Scale,
        ),
        (
            Settings {
                range: 600001.0,
                ..usual
            },
            Refusal::Range,
        ),
        (
            Settings {
                carrier_loop: 0.1,
                ..usual
            },
            Refusal::CarrierLoop,
        ),
        (
            Settings {
                clock_loop: 0.0,
                ..usual
            },
            Refusal::ClockLoop,
        ),
    ] {
        assert_eq!(rt; settings.refusal(), Some(refusal));
    }
}

#[test]
fn forms_are_read(rt: HostRuntime) -> Result<(), AllocError> {
    let alloc = rt.alloc();
    let mut i = vec![in alloc; 0.0f32; BLOCK_SAMPLES]?;
    let mut q = vec![in alloc; 0.0f32; BLOCK_SAMPLES]?;
    assert_eq!(rt; take_samples(Form::U8, &[0, 255, 128], &mut i, &mut q), 1);
    assert!(rt; i[0] == -0.99609375 && q[0] == 0.99609375 && i[1] == 0.0);
    assert_eq!(rt; take_samples(Form::S8, &[0x80, 0x40], &mut i, &mut q), 1);
    assert!(rt; i[0] == -1.0 && q[0] == 0.5);
    assert_eq!(rt;
        take_samples(Form::S16, &[0, 0x80, 0, 0x40, 1], &mut i, &mut q),
        1
    );
    assert!(rt; i[0] == -1.0 && q[0] == 0.5);
    assert_eq!(rt;
        take_samples(
            Form::F32,
            &[0, 0, 0x80, 0x3f, 0, 0, 0xc0, 0x7f],
            &mut i,
            &mut q
        ),
        1
    );
    assert!(rt; i[0] == 1.0 && q[0] == 0.0);
    Ok(())
}

#[test]
fn clipping_is_counted(rt: HostRuntime) -> Result<(), AllocError> {
    let alloc = rt.alloc();
    let mut demodulator = Demodulator::new(alloc, &Settings::usual(RATE, 1000.0))?;
    demodulator.demodulate(Form::U8, &[0, 128, 255, 127, 128, 127, 254, 1]);
    let reception = demodulator.take_reception();
    assert!(rt; reception.samples == 4 && reception.clipped == 0.25);
    assert!(rt;
        demodulator.take_reception().samples == 0,
        "what was told is counted no more"
    );
    Ok(())
}

#[test]
fn an_imbalance_is_corrected(rt: HostRuntime) -> Result<(), AllocError> {
    let alloc = rt.alloc();
    // (Q is 1 dB stronger, and has a part of I: the sine of 5 degrees)
    let block = Moments {
        i: 1.0,
        q: 1.2589,
        product: 0.0978,
    };
    let mut imbalance = Imbalance::new();
    imbalance.learn(&block);
    let i = vec![in alloc; 1.0f32; BLOCK_SAMPLES]?;
    let mut q = vec![in alloc; 0.0978f32; BLOCK_SAMPLES]?;
    imbalance.correct(&i, &mut q);
    assert!(rt; q[0].abs() < 0.0001, "the part of I is taken off");
    let none = vec![in alloc; 0.0f32; BLOCK_SAMPLES]?;
    let mut q = vec![in alloc; 1.1177f32; BLOCK_SAMPLES]?;
    imbalance.correct(&none, &mut q);
    assert!(rt; (q[0] - 1.0).abs() < 0.001, "the gains are the same");
    Ok(())
}

#[test]
fn ratios_are_told_in_decibels(rt: HostRuntime) {
    for (ratio, want) in [
        (1.0f32, 0.0f32),
        (10.0, 10.0),
        (0.5, -3.0103),
        (1234.5, 30.91491),
        (0.0, -200.0),
        (0.0 / 0.0, -200.0),
    ] {
        assert!(rt; (decibels(ratio) - want).abs() < 0.001);
    }
}

/// A head with a form chunk of this number, channels and bits, and a data chunk of this size.
fn head(number: u8, channels: u8, bits: u8, size: u8) -> [u8; 44] {
    [
        b'R', b'I', b'F', b'F', 0, 0, 0, 0, b'W', b'A', b'V', b'E', //
        b'f', b'm', b't', b' ', 16, 0, 0, 0, number, 0, channels, 0, 0, 0x9f, 0x24, 0, 0, 0, 0, 0,
        4, 0, bits, 0, //
        b'd', b'a', b't', b'a', size, 0, 0, 0,
    ]
}

fn fault_of(bytes: &[u8]) -> Option<WaveFault> {
    wave_head(bytes).err()
}

#[test]
fn heads_of_wav_files_are_read(rt: HostRuntime) {
    for (number, bits, form) in [(1, 8, Form::U8), (1, 16, Form::S16), (3, 32, Form::F32)] {
        let bytes = head(number, 2, bits, 8);
        assert!(rt; is_wave(&bytes));
        let Ok(head) = wave_head(&bytes) else {
            panic!(rt; "a head is refused");
        };
        assert!(rt; head.rate == 2400000 && head.form == form && head.start == 44);
        assert_eq!(rt; head.bytes, Some(8));
    }
    assert_eq!(rt; fault_of(&head(1, 1, 16, 8)), Some(WaveFault::Channels));
    assert_eq!(rt; fault_of(&head(1, 2, 24, 8)), Some(WaveFault::Form));
    assert_eq!(rt;
        fault_of(b"RIFF....WAVEdata...."),
        Some(WaveFault::NoSamples)
    );
    assert_eq!(rt;
        fault_of(b"RIFF....WAVELIST...."),
        Some(WaveFault::NoSamples)
    );
    assert!(rt; !is_wave(b"RIFF....AVI "));
}
