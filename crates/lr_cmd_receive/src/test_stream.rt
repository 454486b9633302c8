//! `make`: the test stream.
ghost use Rattle.std.specs.Prelude.{◌≡◌, ◌≤◌, ◌<◌, IfOk, IfErr, OnOk, OnErr};
ghost use Rattle.lr_make.specs.Stream.{frame_stream, block_stream, symbol_stream};
ghost use Rattle.lr_make.specs.Symbols.{bytes_of_symbols};
ghost use Rattle.lr_causes.specs.declared.cause.Party.TheVariants.{Output as OutputParty};
ghost use Rattle.lr_causes.specs.Causes.{IsCaused, counts};
ghost use Rattle.lr_cmd_receive.specs.Made.{made_bytes, MakeEnds, test_frames};
ghost use Rattle.lr_causes.specs.Puts.{Puts, PutFails};

use lr_bits::{BLOCK_BYTES, FRAME_BYTES, FRAME_SYMBOLS};
use lr_causes::{Cause, put_text};
use lr_conv::{Passes, STANDARD};
use lr_forms::{Decoding, Output, UnitForm};
use lr_io::Sink;
use lr_make::{Maker, put_bytes};

/// How the symbols of a test stream are decoded: under the standard's line code, in one pass.
pub const TEST_DECODING: Decoding = Decoding {
    line: STANDARD,
    passes: Passes::One,
};

/// The first frames of a test stream, and how many bytes are wrong in each word of their blocks.
#[derive(Clone, Copy)]
pub(crate) struct TestFrames {
    pub start: u64,
    pub frames: u64,
    pub wrong: u8,
}

fn make_frames<O: Sink>(start: u64, frames: u64, out: &mut O) -> Result<(), Cause>
    ensures put { IfOk result (λ _. Puts O.Sink (frame_stream start frames) out.old out.new) }
    ensures failed { OnErr result (PutFails O.Sink (frame_stream start frames) out.old out.new) }
    ensures cause { IfErr result (λ cause. cause ≡ Cause.Failed OutputParty) }
{
    let Ok(mut maker) = Maker::new(start, 0) else {
        return Err(Cause::NoMemory);
    };
    let mut frame = [0; FRAME_BYTES];
    let mut made = 0;
    'frames: while made < frames {
        // The maker never refuses.
        let _ = maker.next_frame(&mut frame);
        put_text(&frame, out)?;
        made += 1;
    }
    Ok(())
}

fn make_blocks<O: Sink>(start: u64, frames: u64, wrong: u8, out: &mut O) -> Result<(), Cause>
    requires { wrong ≤ 16 }
    ensures put { IfOk result (λ _. Puts O.Sink (block_stream start wrong frames) out.old out.new) }
    ensures failed { OnErr result
        (PutFails O.Sink (block_stream start wrong frames) out.old out.new) }
    ensures cause { IfErr result (λ cause. cause ≡ Cause.Failed OutputParty) }
{
    let Ok(mut maker) = Maker::new(start, wrong) else {
        return Err(Cause::NoMemory);
    };
    let mut block = [0; BLOCK_BYTES];
    let mut made = 0;
    'frames: while made < frames {
        // The maker never refuses.
        let _ = maker.next_block(&mut block);
        put_text(&block, out)?;
        made += 1;
    }
    Ok(())
}

fn make_symbols<O: Sink>(start: u64, frames: u64, wrong: u8, out: &mut O) -> Result<(), Cause>
    requires { wrong ≤ 16 }
    ensures put { IfOk result (λ _. Puts O.Sink (bytes_of_symbols
        (symbol_stream start wrong frames)) out.old out.new) }
    ensures failed { OnErr result
        (PutFails O.Sink (bytes_of_symbols (symbol_stream start wrong frames)) out.old out.new) }
    ensures cause { IfErr result (λ cause. cause ≡ Cause.Failed OutputParty) }
{
    let Ok(mut maker) = Maker::new(start, wrong) else {
        return Err(Cause::NoMemory);
    };
    let mut symbols = [0; FRAME_SYMBOLS];
    let mut bytes = [0; FRAME_SYMBOLS];
    let mut made = 0;
    'frames: while made < frames {
        // The maker never refuses.
        let _ = maker.next_symbols(&mut symbols);
        put_bytes(&symbols, &mut bytes);
        put_text(&bytes, out)?;
        made += 1;
    }
    Ok(())
}

fn cause_of(put: Result<(), Cause>) -> Cause
    ensures done { OnOk put (result ≡ Cause.Done) }
    ensures stopped { IfErr put (λ cause. result ≡ cause) }
{
    match put {
        Ok(()) => Cause::Done,
        Err(cause) => cause,
    }
}

#[tactic(auto, unfolding(crate::specs::Made::made_bytes))]
fn make_units<O: Sink>(
    start: u64,
    frames: u64,
    wrong: u8,
    form: UnitForm,
    out: &mut O,
) -> Result<(), Cause>
    requires { wrong ≤ 16 }
    ensures put { IfOk result (λ _. Puts O.Sink (made_bytes (Output.Units form) (test_frames start frames wrong))
        out.old out.new) }
    ensures failed { OnErr result
        (PutFails O.Sink (made_bytes (Output.Units form) (test_frames start frames wrong)) out.old out.new) }
    ensures cause { IfErr result (λ cause. cause ≡ Cause.Failed OutputParty) }
{
    match form {
        UnitForm::Blocks => make_blocks(start, frames, wrong, out),
        UnitForm::Frames => make_frames(start, frames, out),
    }
}

/// Writes this many frames of the test stream of this start in this form, with `wrong` wrong bytes in each word of a
/// block or of its symbols. It takes no memory.
pub fn make<O: Sink>(start: u64, frames: u64, wrong: u8, form: Output, out: &mut O) -> Cause
    requires { wrong ≤ 16 }
    ensures cause { IsCaused result (counts 0 0 (O.faults out.old))
        (counts 0 0 (O.faults out.new)) }
    ensures ends { MakeEnds O.Sink (made_bytes form (test_frames start frames wrong)) result out.old out.new }
{
    match form {
        Output::Symbols => cause_of(make_symbols(start, frames, wrong, out)),
        Output::Units(form) => cause_of(make_units(start, frames, wrong, form, out)),
    }
}
