//! A demodulator of BPSK: the complex samples of a radio go in, and soft symbols come out, a signed byte each.
//!
//! The samples are I and Q in turn, in one of four forms (`Form`), with the signal near the middle of the band. A block
//! of at most 16,384 of them goes through these steps:
//! - their mean, the receiver's constant, is taken off, and the imbalance of I and Q is corrected (`imbalance`);
//! - the carrier is sought while none is held: the strongest line in the spectrum of the squared signal, in which BPSK
//!   has one at twice the carrier's offset (`carrier`; Gardner, "Phaselock Techniques");
//! - an oscillator moves the carrier to the middle (`mixer`);
//! - a bank of matched filters, root raised cosines at 64 places of a sample, is asked once a symbol, at the symbol's
//!   own time, so nothing is resampled (`filters`; harris and Rice, "Multirate Digital Filters for Symbol Timing
//!   Synchronization in Software Defined Radios", IEEE JSAC 19, 2001);
//! - two loops of second order keep the clock and the phase (`loops`; Mengali and D'Andrea, "Synchronization Techniques
//!   for Digital Receivers"): the clock by the filter's derivative times the soft decision, which is an early-late
//!   detector in its limit, the phase by a Costas loop with the same decision.
//!
//! Every call returns, whatever the samples and the settings are: NaN and infinities count as 0. How much is lost and
//! when it locks is measured, by `bench/demod.sh`, and not proved. Memory is taken by `Demodulator::new` alone. The
//! sums of floats have a stated order and no fused product, and sines, cosines and logarithms are series of this crate,
//! so the symbols are the same bytes on every processor.
#![tactic(auto)]

mod carrier;
mod circle;
mod constant;
mod decibels;
mod demodulator;
mod filters;
mod form;
mod imbalance;
mod loops;
mod mixer;
mod pulse;
mod reception;
mod settings;
mod sizes;
mod spectrum;
mod sums;
#[cfg(test)]
mod tests;
mod wave;

pub use demodulator::Demodulator;
pub use form::Form;
pub use reception::{Lock, Reception};
pub use settings::{Refusal, Settings};
pub use sizes::{BLOCK_SAMPLES, WAVE_HEAD_BYTES};
pub use wave::{WaveFault, WaveHead, is_wave, wave_head};
