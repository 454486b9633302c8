//! Images: pixels, and how they stand in columns and lines.

ghost use Rattle.std.specs.Prelude.{◌≡◌, ◌↔◌, ◌^◌, ◌<◌, ◌≤◌, All, IsTrue, SomeIff};
ghost use Rattle.lr_image.specs.Picture.{IsPicture};

use lr_bits::Pixels;
use std::marker::Model;

/// An image: how many bits a pixel has, 1 to 16, and as many pixels as columns times lines, each below two to the power
/// of bits. The first line comes first.
#[derive(Drop)]
pub struct Image {
    bits: u8,
    columns: u32,
    lines: u32,
    pixels: Pixels,
}

impl Model for Image {
    ghost use Rattle.lr_image.specs.Picture.{Picture, IsPicture};

    ghost Value = { Picture };

    ghost view = { λ i. record { bits = i.bits; columns = i.columns; lines = i.lines; pixels = i.pixels } };

    ghost invariant = { λ i. IsPicture
        (record { bits = i.bits; columns = i.columns; lines = i.lines; pixels = i.pixels }) };
}

impl Image {
    /// The image of these pixels. `None` exactly where a pixel has other than 1 to 16 bits, where there are not columns
    /// times lines pixels, or where some pixel isn't below two to the power of bits. This takes no memory.
    pub fn build(bits: u8, columns: u32, lines: u32, pixels: Pixels) -> Option<Self>
        ensures { SomeIff result (IsPicture (record { bits = bits; columns = columns; lines = lines; pixels = pixels }))
            (record { bits = bits; columns = columns; lines = lines; pixels = pixels }) }
    {
        if bits < 1 || bits > 16 {
            return None;
        }
        let each = pixels.as_slice();
        if u64::from(columns) * u64::from(lines) != each.len() as u64 || !are_below(each, bits) {
            return None;
        }
        Some(Image {
            bits,
            columns,
            lines,
            pixels,
        })
    }

    /// How many bits a pixel has, 1 to 16.
    pub fn bits(&self) -> u8
        ensures value { result ≡ self.now.bits }
        ensures picture { IsPicture self.now }
    {
        self.bits
    }

    /// How many pixels a line has.
    pub fn columns(&self) -> u32
        ensures { result ≡ self.now.columns }
    {
        self.columns
    }

    /// How many lines the image has.
    pub fn lines(&self) -> u32
        ensures { result ≡ self.now.lines }
    {
        self.lines
    }

    /// The pixels, line after line.
    pub fn pixels(&self) -> &[u16]
        ensures value { result.now ≡ self.now.pixels }
        ensures picture { IsPicture self.now }
    {
        // So the proof sees that the value is a picture.
        let _ = &self.bits;
        self.pixels.as_slice()
    }
}

/// Whether each pixel is below two to the power of bits.
fn are_below(pixels: &[u16], bits: u8) -> bool
    requires { bits ≤ 16 }
    ensures { IsTrue result ↔ All (λ pixel. pixel < 2 ^ bits) pixels.now }
{
    let limit = 1 << bits;
    pixels.iter().all(|pixel| u32::from(*pixel) < limit)
}

/// The image of pixels of which it is known that they make one. It looks at none of them, and takes no memory.
pub fn whole_image(bits: u8, columns: u32, lines: u32, pixels: Pixels) -> Image
    requires { IsPicture (record { bits = bits; columns = columns; lines = lines; pixels = pixels }) }
    ensures { result ≡ record { bits = bits; columns = columns; lines = lines; pixels = pixels } }
{
    Image {
        bits,
        columns,
        lines,
        pixels,
    }
}
