//! Images as PGM.

ghost use Rattle.std.specs.Prelude.{◌≡◌, ◌<◌, ◌≤◌, ◌^◌, ◌*◌, ◌%◌, ◌++◌, length, map, take, All, IfOk, OnErr, OnOk};
ghost use Rattle.std.specs.Prelude.{string_bytes};
ghost use Rattle.std.specs.List.{flat_map};
ghost use Rattle.lr_image.specs.Pgm.{head_text, line_bytes, pixel_bytes};

use crate::Image;
use lr_bits::{Bytes, NoMemory};
use std::alloc::{AllocError, Global};

/// The most bits that a pixel has which is written in one byte.
const BYTE_BITS: u8 = 8;

/// Appends the head of an image's PGM, or nothing.
pub fn pgm_head(alloc: Global, image: &Image, out: &mut Bytes) -> Result<(), NoMemory>
    ensures ok { OnOk result (out.new ≡ out.old ++ head_text image.now) }
    ensures err { OnErr result (out.new ≡ out.old) }
{
    let head = head_text(alloc, image)?;
    out.extend(head.as_bytes())
}

#[tactic(auto, unfolding(crate::specs::Pgm::head_text))]
fn head_text(alloc: Global, image: &Image) -> Result<String, AllocError>
    ensures { IfOk result (λ text. string_bytes text ≡ head_text image.now) }
{
    let columns = image.columns();
    let lines = image.lines();
    let most = (1u32 << image.bits()) - 1;
    format!(in alloc; "P5\n{columns} {lines}\n{most}\n")
}

/// Appends a line of an image's PGM, or nothing. Lines count from 0.
pub fn pgm_line(alloc: Global, image: &Image, line: u32, out: &mut Bytes) -> Result<(), NoMemory>
    requires { line < image.now.lines }
    ensures ok { OnOk result (out.new ≡ out.old ++ line_bytes image.now line) }
    ensures err { OnErr result (out.new ≡ out.old) }
{
    let columns = image.columns() as usize;
    let start = line as usize * columns;
    let row = &image.pixels()[start..start + columns];
    let bytes = row_bytes(alloc, row, image.bits())?;
    out.extend(&bytes)
}

/// The bytes of pixels.
fn row_bytes(alloc: Global, row: &[u16], bits: u8) -> Result<Vec<u8>, AllocError>
    requires { All (λ pixel. pixel < 2 ^ bits) row.now }
    ensures { IfOk result (λ bytes. bytes.items ≡ flat_map (pixel_bytes bits) row.now) }
{
    if bits <= BYTE_BITS {
        low_bytes(alloc, row)
    } else {
        wide_bytes(alloc, row)
    }
}

/// The least significant byte of each pixel.
fn low_bytes(alloc: Global, row: &[u16]) -> Result<Vec<u8>, AllocError>
    ensures { IfOk result (λ bytes. bytes.items ≡ map (λ pixel. pixel % 256) row.now) }
{
    row.iter().map(|pixel| (*pixel % 256) as u8).collect(alloc)
}

/// Both bytes of each pixel.
fn wide_bytes(alloc: Global, row: &[u16]) -> Result<Vec<u8>, AllocError>
    ensures { IfOk result (λ bytes. bytes.items ≡ flat_map (pixel_bytes 16) row.now) }
{
    let mut bytes = Vec::with_capacity(alloc, 2 * row.len())?;
    for pixel in row {
        bytes.extend_from_slice(&pixel.to_be_bytes())?;
    }
    Ok(bytes)
}

/// Writes the bytes of pixels, as they stand in a PGM, over the first bytes of `into`, and answers how many these are.
pub fn write_pixels(pixels: &[u16], bits: u8, into: &mut [u8]) -> usize
    requires small { All (λ pixel. pixel < 2 ^ bits) pixels.now }
    requires room { 2 * length pixels.now ≤ length into.old }
    ensures within { result ≤ length into.old }
    ensures written { take result into.new ≡ flat_map (pixel_bytes bits) pixels.now }
{
    if bits <= BYTE_BITS {
        write_low_bytes(pixels, into);
        pixels.len()
    } else {
        write_wide_bytes(pixels, into);
        2 * pixels.len()
    }
}

/// Writes the least significant byte of each pixel.
fn write_low_bytes(pixels: &[u16], into: &mut [u8])
    requires { length pixels.now ≤ length into.old }
    ensures { take (length pixels.now) into.new ≡ map (λ pixel. pixel % 256) pixels.now }
{
    for place in 0..pixels.len() {
        into[place] = (pixels[place] % 256) as u8;
    }
}

/// Writes both bytes of each pixel.
fn write_wide_bytes(pixels: &[u16], into: &mut [u8])
    requires { 2 * length pixels.now ≤ length into.old }
    ensures { take (2 * length pixels.now) into.new ≡ flat_map (pixel_bytes 16) pixels.now }
{
    for place in 0..pixels.len() {
        let pixel = pixels[place];
        into[2 * place] = (pixel / 256) as u8;
        into[2 * place + 1] = (pixel % 256) as u8;
    }
}
