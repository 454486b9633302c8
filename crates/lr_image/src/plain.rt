//! Pixels that stand one after another.

ghost use Rattle.std.specs.Prelude.{◌≡◌, ◌<◌, ◌≤◌, ◌+◌, ◌*◌, ◌^◌, ◌⊎◌, IfErr, IfNone, IfOk, IfSome, drop, length, take};
ghost use Rattle.lr_bits.specs.Bits.{bits_of};
ghost use Rattle.lr_image.specs.Plain.{BeginsWithPixels, PixelsFail, whole_pixels};
ghost use Rattle.lr_image.specs.declared.fault.ImageFault.TheVariants.{NoMemory};

use crate::ImageFault;
use lr_bits::{BitReader, Pixels};
use std::alloc::Global;

/// The first pixels of these bytes, which stand one after another.
pub(crate) fn plain_pixels(
    alloc: Global,
    bytes: &[u8],
    bits: u8,
    count: usize,
) -> Result<Pixels, ImageFault>
    requires bits { (1 ≤ bits) × (bits ≤ 16) }
    requires few { length bytes.now < 2 ^ 32 }
    ensures ok { IfOk result (BeginsWithPixels bits count (bits_of bytes.now)) }
    ensures err { IfErr result (λ fault. (fault ≡ NoMemory) ⊎ PixelsFail bits count bytes.now fault) }
    // Pixels that aren't there are missed before memory is taken.
    ensures first { whole_pixels bits bytes.now < count → IfErr result (PixelsFail bits count bytes.now) }
{
    if let Some(fault) = missing_pixels(bytes, bits, count) {
        return Err(fault);
    }
    let Ok(mut pixels) = Pixels::zeros(alloc, count) else {
        return Err(ImageFault::NoMemory);
    };
    read_pixels(bytes, 0, bits, pixels.as_mut_slice());
    Ok(pixels)
}

/// The fault of bytes that have fewer pixels than these.
pub fn missing_pixels(bytes: &[u8], bits: u8, count: usize) -> Option<ImageFault>
    requires bits { 1 ≤ bits }
    requires few { length bytes.now < 2 ^ 32 }
    ensures some { IfSome result (PixelsFail bits count bytes.now) }
    ensures none { IfNone result (bits * count ≤ 8 * length bytes.now) }
    ensures enough { IfNone result (count ≤ whole_pixels bits bytes.now) }
{
    let whole = 8 * bytes.len() as u64 / u64::from(bits);
    if whole < count as u64 {
        return Some(ImageFault::Short { pixels: whole });
    }
    None
}

/// Writes the pixels that stand one after another from this bit of the first byte on. This takes no memory.
pub fn read_pixels(bytes: &[u8], first_bit: u32, bits: u8, pixels: &mut [u16])
    requires first { first_bit < 8 }
    requires bits { (1 ≤ bits) × (bits ≤ 16) }
    requires few { length bytes.now < 2 ^ 61 }
    requires enough { first_bit + bits * length pixels.old ≤ 8 * length bytes.now }
    ensures { BeginsWithPixels bits (length pixels.old) (drop first_bit (bits_of bytes.now)) pixels.new }
{
    if bits == 8 && first_bit == 0 {
        copy_bytes(bytes, pixels);
    } else {
        read_numbers(bytes, first_bit, u32::from(bits), pixels);
    }
}

/// Writes the first bytes as pixels.
fn copy_bytes(bytes: &[u8], pixels: &mut [u16])
    requires { length pixels.old ≤ length bytes.now }
    ensures { pixels.new ≡ take (length pixels.old) bytes.now }
{
    let front = &bytes[..pixels.len()];
    for place in 0..front.len() {
        pixels[place] = u16::from(front[place]);
    }
}

/// Writes the numbers of this many bits each that stand from this bit on.
fn read_numbers(bytes: &[u8], first_bit: u32, bits: u32, pixels: &mut [u16])
    requires first { first_bit < 8 }
    requires bits { (1 ≤ bits) × (bits ≤ 16) }
    requires few { length bytes.now < 2 ^ 61 }
    requires enough { first_bit + bits * length pixels.old ≤ 8 * length bytes.now }
    ensures { BeginsWithPixels bits (length pixels.old) (drop first_bit (bits_of bytes.now)) pixels.new }
{
    let mut reader = reader_at(bytes, first_bit);
    for pixel in pixels.iter_mut() {
        let Ok(number) = reader.bits(bits) else {
            unreachable!();
        };
        *pixel = number as u16;
    }
}

/// Reads from this bit on.
fn reader_at(bytes: &[u8], first_bit: u32) -> BitReader<'_>
    requires first { first_bit < 8 }
    requires few { length bytes.now < 2 ^ 61 }
    requires there { first_bit ≤ 8 * length bytes.now }
    ensures { result ≡ drop first_bit (bits_of bytes.now) }
{
    let mut reader = BitReader::new(bytes);
    let Ok(_) = reader.bits(first_bit) else {
        unreachable!();
    };
    reader
}
