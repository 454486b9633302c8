//! Segments put together.

use lr_bits::{NoMemory, Pixels};
use lr_headers::Segment;
use lr_image::Image;
use lr_segment::{AssembleFault, Assembly};
use std::alloc::Global;
use std::test::Fail;

/// A segment of an image of two columns and two lines.
fn segment(start_column: u16, start_line: u16) -> Segment {
    Segment {
        image: 1,
        number: 0,
        start_column,
        start_line,
        segments: 2,
        columns: 2,
        lines: 2,
    }
}

fn pixels_of(alloc: Global, values: &[u16]) -> Result<Pixels, NoMemory> {
    let mut pixels = Pixels::new(alloc);
    for value in values {
        pixels.push(*value)?;
    }
    Ok(pixels)
}

fn image_of(bits: u8, columns: u32, pixels: Pixels) -> Option<Image> {
    Image::build(bits, columns, 1, pixels)
}

/// An image of one line.
fn row(alloc: Global, bits: u8, values: &[u16]) -> Result<Option<Image>, NoMemory> {
    let columns = u32::try_from(values.len()).unwrap_or(0);
    Ok(image_of(bits, columns, pixels_of(alloc, values)?))
}

fn is_same(found: AssembleFault, wanted: AssembleFault) -> bool {
    match (found, wanted) {
        (AssembleFault::Empty, AssembleFault::Empty) => true,
        (AssembleFault::TooLarge { pixels }, AssembleFault::TooLarge { pixels: other }) => pixels
            == other,
        (
            AssembleFault::Depths { kept, given },
            AssembleFault::Depths {
                kept: bits,
                given: other,
            },
        ) => kept == bits && given == other,
        (AssembleFault::Outside, AssembleFault::Outside) => true,
        _ => false,
    }
}

/// Whether this answer is this fault.
fn is_fault<T: Drop>(answer: Result<T, AssembleFault>, wanted: AssembleFault) -> bool {
    match answer {
        Ok(_) => false,
        Err(fault) => is_same(fault, wanted),
    }
}

// ---- the calls

fn begun_assembly(alloc: Global, segment: &Segment) -> Result<Assembly, AssembleFault> {
    Assembly::new(alloc, segment, 8)
}

fn add(assembly: &mut Assembly, image: &Image, segment: &Segment) -> Result<(), AssembleFault> {
    assembly.add(image, segment)
}

fn finish(assembly: Assembly) -> (Image, u64) {
    assembly.finish()
}

/// Whether a line of these pixels is added at this place.
fn takes(
    alloc: Global,
    assembly: &mut Assembly,
    values: &[u16],
    column: u16,
) -> Result<bool, Fail> {
    let image = row(alloc, 8, values)?.ok_or("no image")?;
    Ok(add(assembly, &image, &segment(column, 0)).is_ok())
}

/// Whether a line of these pixels is refused at this place, with this fault.
fn refuses(
    alloc: Global,
    assembly: &mut Assembly,
    bits: u8,
    values: &[u16],
    at: Segment,
    fault: AssembleFault,
) -> Result<bool, Fail> {
    let image = row(alloc, bits, values)?.ok_or("no image")?;
    Ok(is_fault(add(assembly, &image, &at), fault))
}

/// The pixels 1 and 2 at the column 0, and then 9 at the column 1, with refused ones between.
fn replaces(alloc: Global, assembly: &mut Assembly) -> Result<bool, Fail> {
    let depths = AssembleFault::Depths { kept: 8, given: 9 };
    let outside = AssembleFault::Outside;
    Ok(
        takes(alloc, assembly, &[1, 2], 0)?
            && takes(alloc, assembly, &[9], 1)?
            && refuses(alloc, assembly, 8, &[1, 2], segment(1, 0), outside)?
            && refuses(alloc, assembly, 8, &[9], segment(0, 2), outside)?
            && refuses(alloc, assembly, 9, &[9], segment(1, 0), depths)?,
    )
}

/// Whether the assembly is this image, with two pixels that no segment covers.
fn gives(assembly: Assembly, wanted: &[u16]) -> bool {
    let (image, uncovered) = finish(assembly);
    *image.pixels() == *wanted && uncovered == 2
}

#[test]
fn later_segments_replace_earlier_ones(rt: HostRuntime) -> Result<(), Fail> {
    let alloc = rt.alloc();
    let mut assembly = begun_assembly(alloc, &segment(0, 0))
        .ok()
        .ok_or("no assembly")?;
    let is_replaced = replaces(alloc, &mut assembly)?;
    assert!(rt; is_replaced && gives(assembly, &[1, 9, 0, 0]));
    Ok(())
}

#[test]
fn an_image_has_columns_and_lines(rt: HostRuntime) -> Result<(), Fail> {
    let mut none = segment(0, 0);
    none.columns = 0;
    assert!(rt; is_fault(begun_assembly(rt.alloc(), &none), AssembleFault::Empty));
    let mut large = segment(0, 0);
    large.columns = 65_535;
    large.lines = 65_535;
    let pixels = 65_535 * 65_535;
    assert!(rt;
        is_fault(
            begun_assembly(rt.alloc(), &large),
            AssembleFault::TooLarge { pixels }
        )
    );
    Ok(())
}
