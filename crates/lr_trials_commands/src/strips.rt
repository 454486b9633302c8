//! What strips have, and what they make together.

use crate::image_files::{file_of, plain_file};
use lr_bits::{Bytes, MissionFile, NoMemory};
use lr_gatecore::Work;
use lr_image::{Image, ImageFault, image_of};
use lr_render::{Coding, Plan, RenderWork, Strip, StripSource, outcome_in_strips};
use lr_rice::RiceFault;
use lr_trials_support::{CODED, FIRST_LINE, SECOND_LINE, is_number};
use std::alloc::Global;
use std::test::Fail;

/// Whether both ways of reading a file give the same image, with this many pixels.
fn is_alike(alloc: Global, file: MissionFile, pixels: usize) -> bool {
    let Ok(image) = image_of(alloc, &file) else {
        return false;
    };
    match outcome_in_strips(alloc, file) {
        Ok(Ok(other)) => {
            image.bits() == other.bits()
                && image.columns() == other.columns()
                && image.lines() == other.lines()
                && image.pixels().len() == pixels
                && image.pixels() == other.pixels()
        }
        _ => false,
    }
}

/// Whether the image of this file, strip by strip, has these pixels.
fn has_pixels(alloc: Global, file: MissionFile, wanted: &[u16]) -> bool {
    match outcome_in_strips(alloc, file) {
        Ok(Ok(image)) => image.pixels() == wanted,
        _ => false,
    }
}

/// Whether it has too few pixels, this many.
fn is_short(alloc: Global, file: MissionFile, wanted: u64) -> bool {
    matches!(outcome_in_strips(alloc, file), Ok(Err(ImageFault::Short { pixels })) if pixels == wanted)
}

/// Whether the strips of a file have these numbers of lines. Where they don't, the failure says which.
fn has_strips(alloc: Global, file: MissionFile, wanted: &[u32]) -> Result<bool, Fail> {
    let mut plan = Plan::new(alloc, file).ok().ok_or("no plan")?;
    let mut work = RenderWork::new();
    for (place, lines) in wanted.iter().enumerate() {
        let strip = plan.next_strip()?.ok_or("too few strips")?;
        let came = work.run(strip).lines();
        is_number(
            format_args!("the lines of strip {place}"),
            u64::from(came),
            u64::from(*lines),
        )?;
    }
    Ok(plan.next_strip()?.is_none())
}

#[test]
fn each_piece_is_a_strip(rt: HostRuntime) -> Result<(), Fail> {
    let alloc = rt.alloc();
    let pixels = [5, 5, 5, 5, 5, 5, 5, 5, 5, 6, 4, 5, 5, 5, 5, 5];
    assert!(rt;
        has_pixels(
            alloc,
            file_of(alloc, &[&CODED, &FIRST_LINE, &SECOND_LINE])?,
            &pixels
        )
    );
    assert!(rt;
        has_strips(
            alloc,
            file_of(alloc, &[&CODED, &FIRST_LINE, &SECOND_LINE])?,
            &[1, 1]
        )?
    );
    assert!(rt; is_short(alloc, file_of(alloc, &[&CODED, &FIRST_LINE])?, 8));
    Ok(())
}

/// Whether the first line of the second piece isn't whole.
pub(crate) fn fails_in_the_second_piece(
    outcome: Result<Result<Image, ImageFault>, NoMemory>,
) -> bool {
    matches!(
        outcome,
        Ok(Err(ImageFault::Rice {
            piece: 1,
            fault: RiceFault::Ended { line: 0 },
        }))
    )
}

#[test]
fn the_first_fault_is_named(rt: HostRuntime) -> Result<(), Fail> {
    let alloc = rt.alloc();
    let cut = file_of(alloc, &[&CODED, &FIRST_LINE, &SECOND_LINE[..2]])?;
    assert!(rt; fails_in_the_second_piece(outcome_in_strips(alloc, cut)));
    let mut flagless = CODED;
    flagless[39] = 17;
    let outcome = outcome_in_strips(
        alloc,
        file_of(alloc, &[&flagless, &FIRST_LINE, &SECOND_LINE])?,
    );
    assert!(rt; matches!(outcome, Ok(Err(ImageFault::Flags { flags: 17 }))));
    Ok(())
}

/// An image of 12 bits, 3 columns and 130 lines has 585 bytes.
#[test]
fn lines_of_twelve_bits_are_tiled(rt: HostRuntime) -> Result<(), Fail> {
    let alloc = rt.alloc();
    assert!(rt; is_alike(alloc, plain_file(alloc, 12, 3, 130, 585)?, 390));
    assert!(rt; has_strips(alloc, plain_file(alloc, 12, 3, 130, 585)?, &[64, 64, 2])?);
    assert!(rt; is_short(alloc, plain_file(alloc, 12, 3, 130, 584)?, 389));
    Ok(())
}

/// That images of all depths are read alike. They have two strips, of 63 lines and of 2, and the second one of most
/// of them begins inside a byte.
fn are_alike_at_all_depths(alloc: Global) -> Result<(), Fail> {
    for bits in 1..17u8 {
        let size = (usize::from(bits) * 65 * 1_025).div_ceil(8);
        if !is_alike(alloc, plain_file(alloc, bits, 1_025, 65, size)?, 66_625) {
            return Err(Fail::new(format_args!("an image of {bits} bits is read in two ways")));
        }
    }
    Ok(())
}

#[test]
fn images_of_one_to_sixteen_bits_are_tiled(rt: HostRuntime) -> Result<(), Fail> {
    let alloc = rt.alloc();
    are_alike_at_all_depths(alloc)?;
    assert!(rt; has_strips(alloc, plain_file(alloc, 1, 1_025, 65, 8_329)?, &[63, 2])?);
    Ok(())
}

/// A line of 65,535 pixels is a strip.
#[test]
fn the_widest_image_is_tiled(rt: HostRuntime) -> Result<(), Fail> {
    let alloc = rt.alloc();
    assert!(rt; is_alike(alloc, plain_file(alloc, 8, 65_535, 3, 196_605)?, 196_605));
    assert!(rt; has_strips(alloc, plain_file(alloc, 8, 65_535, 3, 196_605)?, &[1, 1, 1])?);
    Ok(())
}

/// Does a job, by what is known of all work.
fn done_by<W: Work>(work: &mut W, job: W::Job) -> W::Done {
    work.run(job)
}

/// The pixels of a strip of three pixels of 4 bits that begins at the bit 4 of its first byte.
#[test]
fn a_strip_may_begin_inside_a_byte(rt: HostRuntime) -> Result<(), Fail> {
    let alloc = rt.alloc();
    let mut bytes = Bytes::new(alloc);
    bytes.extend(&[0xF1, 0x23])?;
    let source = StripSource {
        bytes,
        coding: Coding::Plain { first_bit: 4 },
        bits: 4,
        columns: 3,
        lines: 1,
    };
    let done = done_by(&mut RenderWork::new(), Strip::new(alloc, source)?);
    assert!(rt; done.pixels() == [1, 2, 3].as_slice());
    Ok(())
}
