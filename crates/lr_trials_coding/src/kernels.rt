//! The kernels beside one another.

ghost use Rattle.std.specs.Prelude.{◌≡◌, length};

use crate::windows::{LINES, drawn_window, window_of_three};
use lr_bits::{BLOCK_BYTES, NoMemory, WINDOW_SYMBOLS};
use lr_conv::LineCode;
use lr_lanes::{LaneScratch, nearest_lanes, nearest_narrow_lanes};
use lr_trellis::{TrellisScratch, nearest};
use std::alloc::Global;
use std::fmt::Display;
use std::test::Fail;

/// Room for the kernels.
#[derive(Drop)]
pub(crate) struct Kernels {
    plain: TrellisScratch,
    lanes: LaneScratch,
}

impl Kernels {
    pub(crate) fn new(alloc: Global) -> Result<Kernels, NoMemory> {
        let plain = TrellisScratch::new(alloc)?;
        let lanes = LaneScratch::new(alloc)?;
        Ok(Kernels { plain, lanes })
    }

    /// The bytes that the lanes of 32 and of sixteen bits give for a window, where they give the same.
    fn lane_bytes(&mut self, line: LineCode, window: &[i8]) -> Option<[u8; BLOCK_BYTES]>
        requires { length window.now ≡ WINDOW_SYMBOLS }
    {
        let mut bytes = [1; BLOCK_BYTES];
        let mut others = [2; BLOCK_BYTES];
        nearest_lanes(line, window, &mut self.lanes, &mut bytes);
        nearest_narrow_lanes(line, window, &mut self.lanes, &mut others);
        if bytes == others { Some(bytes) } else { None }
    }

    /// The bytes that all kernels give for a window, where they give the same.
    pub(crate) fn bytes_of(&mut self, line: LineCode, window: &[i8]) -> Option<[u8; BLOCK_BYTES]>
        requires { length window.now ≡ WINDOW_SYMBOLS }
    {
        let mut bytes = [1; BLOCK_BYTES];
        nearest(line, window, &mut self.plain, &mut bytes);
        if self.lane_bytes(line, window) == Some(bytes) {
            Some(bytes)
        } else {
            None
        }
    }
}

/// What is said of a window for which kernels give different bytes.
fn differing<N: Display + Drop>(line: LineCode, name: N) -> Fail {
    let LineCode { marks, inverted } = line;
    Fail::new(format_args!("{name}: the kernels differ (marks {marks}, inverted {inverted})"))
}

/// That all kernels give the same bytes for a window under each line code.
fn agree(kernels: &mut Kernels, window: &[i8], name: &str) -> Result<(), Fail>
    requires { length window.now ≡ WINDOW_SYMBOLS }
{
    for line in LINES {
        if kernels.bytes_of(line, window).is_none() {
            return Err(differing(line, name));
        }
    }
    Ok(())
}

/// That the lanes of both widths give the same bytes for a drawn window under each line code.
fn lanes_agree(kernels: &mut Kernels, window: &[i8], start: u64) -> Result<(), Fail>
    requires { length window.now ≡ WINDOW_SYMBOLS }
{
    for line in LINES {
        if kernels.lane_bytes(line, window).is_none() {
            let name = format_args!("the lanes of window {start}");
            return Err(differing(line, name));
        }
    }
    Ok(())
}

#[test]
fn lanes_of_both_widths_agree_on_drawn_windows(rt: HostRuntime) -> Result<(), Fail> {
    let mut kernels = Kernels::new(rt.alloc())?;
    for start in 1..=1_000u64 {
        let window = drawn_window(rt.alloc(), start)?;
        lanes_agree(&mut kernels, &window, start)?;
    }
    Ok(())
}

#[test]
fn kernels_agree_on_windows_of_one_value(rt: HostRuntime) -> Result<(), Fail> {
    let mut kernels = Kernels::new(rt.alloc())?;
    for value in [-128i8, -127, 0, 127] {
        let window = vec![in rt.alloc(); value; WINDOW_SYMBOLS]?;
        let name = format!(in rt.alloc(); "a window of {value}")?;
        agree(&mut kernels, &window, &name)?;
    }
    Ok(())
}

#[test]
fn kernels_agree_on_drawn_windows(rt: HostRuntime) -> Result<(), Fail> {
    let mut kernels = Kernels::new(rt.alloc())?;
    for start in 1..=32u64 {
        let window = drawn_window(rt.alloc(), start)?;
        let name = format!(in rt.alloc(); "window {start}")?;
        agree(&mut kernels, &window, &name)?;
    }
    Ok(())
}

#[test]
fn kernels_agree_on_windows_of_three_values(rt: HostRuntime) -> Result<(), Fail> {
    let mut kernels = Kernels::new(rt.alloc())?;
    for start in 1..=4u64 {
        let name = format!(in rt.alloc(); "window {start} of three values")?;
        let ties = window_of_three(rt.alloc(), start, &[-1, 0, 1])?;
        agree(&mut kernels, &ties, &name)?;
        let extremes = window_of_three(rt.alloc(), start, &[-128, -127, 127])?;
        agree(&mut kernels, &extremes, &name)?;
    }
    Ok(())
}

/// All paths tie in a window of zeros.
#[test]
fn least_levels_win_where_all_paths_tie(rt: HostRuntime) -> Result<(), Fail> {
    let mut kernels = Kernels::new(rt.alloc())?;
    let window = vec![in rt.alloc(); 0i8; WINDOW_SYMBOLS]?;
    for line in LINES {
        let mut expected = [0; BLOCK_BYTES];
        expected[0] = if line.marks { 0x80 } else { 0 };
        let came = kernels.bytes_of(line, &window);
        assert!(rt; came == Some(expected), "marks {}: {came:?}", line.marks);
    }
    Ok(())
}
