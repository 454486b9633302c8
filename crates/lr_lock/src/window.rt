//! Windows, and how they are filled.

ghost use Rattle.std.specs.Prelude.{◌≡◌, ◌≢◌, ◌≤◌, pos, negsuc, true, length, IfOk};
ghost use Rattle.std.specs.List.{All};
ghost use Rattle.lr_lock.specs.Windows.{turned_value, window_of};
ghost use Rattle.lr_lock.specs.Thresholds.{lock_symbols};
ghost use Rattle.lr_conv.specs.declared.passes.Passes.TheVariants.{One};

use crate::frame::Frame;
use crate::sizes::LOCK_SYMBOLS;
use lr_bits::{NoMemory, WINDOW_SYMBOLS};
use lr_conv::{LineCode, MARKER_SYMBOLS, Passes};
use std::alloc::Global;
use std::marker::Model;

/// What a decoder is shown of a frame: where its marker begins in the stream, its polarity, the line code of its
/// symbols, how many passes to make over them, and the 16,332 symbols after the marker (CCSDS 131.0-B, section 9.3),
/// each times the sign of the polarity. No symbol is -128.
#[derive(Drop)]
pub struct Window {
    position: u64,
    positive: bool,
    line: LineCode,
    passes: Passes,
    values: Vec<i8>,
}

impl Model for Window {
    ghost use Rattle.std.specs.Prelude.{◌≡◌, ◌≢◌, negsuc, length};
    ghost use Rattle.std.specs.List.{All};
    ghost use Rattle.lr_bits.specs.declared.sizes.TheConstants.{WINDOW_SYMBOLS};
    ghost use Rattle.lr_lock.specs.Windows.{WindowView};

    ghost Value = { WindowView };

    ghost view = { λ w. record {
      position = w.position;
      positive = w.positive;
      line = w.line;
      passes = w.passes;
      symbols = w.values.items;
    } };

    ghost invariant = { λ w. (length w.values.items ≡ WINDOW_SYMBOLS) × All (λ v. v ≢ negsuc 127) w.values.items };
}

/// A symbol times the sign of the polarity.
fn turned_value(symbol: i8, positive: bool) -> i8
    ensures value { result ≡ turned_value positive symbol }
    ensures soft { result ≢ negsuc 127 }
{
    let value = symbol.max(-127);
    if positive { value } else { -value }
}

/// Fills a window with the symbols after the marker that stands first among these, as far as they go, and with zeros
/// from there on.
fn fill(out: &mut [i8], symbols: &[i8], positive: bool)
    requires room { length out.old ≡ WINDOW_SYMBOLS }
    requires size { length symbols.now ≤ lock_symbols }
    ensures values { out.new ≡ window_of symbols.now 0 positive }
    ensures soft { All (λ v. v ≢ negsuc 127) out.new }
{
    let whole = symbols.len().saturating_sub(MARKER_SYMBOLS).min(out.len());
    for i in 0..whole {
        out[i] = turned_value(symbols[MARKER_SYMBOLS + i], positive);
    }
    for i in whole..out.len() {
        out[i] = 0;
    }
}

impl Window {
    /// A window of zeros of this line code, for one pass, at position 0 and the positive polarity.
    pub fn new(alloc: Global, line: LineCode) -> Result<Self, NoMemory>
        ensures position { IfOk result (λ window. window.position ≡ 0) }
        ensures positive { IfOk result (λ window. window.positive ≡ true) }
        ensures line { IfOk result (λ window. window.line ≡ line) }
        ensures passes { IfOk result (λ window. window.passes ≡ One) }
        ensures symbols { IfOk result (λ window. All (λ v. v ≡ pos 0) window.symbols) }
    {
        Self::with_passes(alloc, line, Passes::One)
    }

    /// A window of zeros of this line code, for so many passes, at position 0 and the positive polarity.
    pub fn with_passes(alloc: Global, line: LineCode, passes: Passes) -> Result<Self, NoMemory>
        ensures position { IfOk result (λ window. window.position ≡ 0) }
        ensures positive { IfOk result (λ window. window.positive ≡ true) }
        ensures line { IfOk result (λ window. window.line ≡ line) }
        ensures passes { IfOk result (λ window. window.passes ≡ passes) }
        ensures symbols { IfOk result (λ window. All (λ v. v ≡ pos 0) window.symbols) }
    {
        let values = vec![in alloc; 0i8; WINDOW_SYMBOLS]?;
        Ok(Window {
            position: 0,
            positive: true,
            line,
            passes,
            values,
        })
    }

    /// Where the marker of the frame begins: the number of symbols in front of it.
    pub fn position(&self) -> u64
        ensures { result ≡ self.now.position }
    {
        self.position
    }

    /// Whether the frame has the positive polarity.
    pub fn positive(&self) -> bool
        ensures { result ≡ self.now.positive }
    {
        self.positive
    }

    /// The line code of the symbols.
    pub fn line(&self) -> LineCode
        ensures { result ≡ self.now.line }
    {
        self.line
    }

    /// How many passes a decoder makes over the window.
    pub fn passes(&self) -> Passes
        ensures { result ≡ self.now.passes }
    {
        self.passes
    }

    /// The symbols of the window.
    pub fn symbols(&self) -> &[i8]
        ensures symbols { result.now ≡ self.now.symbols }
        ensures number { length result.now ≡ WINDOW_SYMBOLS }
        ensures soft { All (λ v. v ≢ negsuc 127) result.now }
    {
        self.values.as_slice()
    }

    /// Shows the frame, whose symbols stand first among these.
    pub(crate) fn show(&mut self, frame: Frame, symbols: &[i8])
        requires { length symbols.now ≤ lock_symbols }
        ensures { self.new ≡ record {
          position = frame.place;
          positive = frame.positive;
          line = self.old.line;
          passes = self.old.passes;
          symbols = window_of symbols.now 0 frame.positive;
        } }
    {
        self.position = frame.place;
        self.positive = frame.positive;
        fill(self.values.as_mut_slice(), symbols, frame.positive);
    }
}
