//! Windows and their outcomes.

ghost use Rattle.std.specs.Prelude.{◌≡◌};

use crate::drawn::drawn_stream;
use crate::streams::{bytes_of, coded_frames, part, sent_symbols, turn};
use crate::windows::LINES;
use lr_bits::{FRAME_BYTES, NoMemory, Outcome, WINDOW_SYMBOLS};
use lr_conv::{LineCode, MARKER_SYMBOLS, STANDARD};
use lr_frame::FrameWork;
use lr_gatecore::Work;
use lr_lock::{LOCK_SYMBOLS, Lock, Step, Window};
use std::alloc::Global;
use std::test::Fail;

/// Does a job, whatever does it.
fn done_by<W: Work>(work: &mut W, job: W::Job) -> W::Done
    ensures { result ≡ W.gives job }
{
    work.run(job)
}

/// Whether this is a restored frame of 7F, with no byte changed.
fn is_plain(outcome: &Outcome) -> bool {
    match outcome {
        Outcome::Restored(corrected, frame) => {
            let changed = corrected.0;
            changed == [0; 4] && *frame == [0x7F; FRAME_BYTES]
        }
        Outcome::Lost(_) => false,
    }
}

/// Whether this is a restored frame that begins with these bytes.
fn begins(outcome: &Outcome, bytes: &[u8; 5]) -> bool {
    match outcome {
        Outcome::Restored(_, frame) => frame.starts_with(bytes),
        Outcome::Lost(_) => false,
    }
}

/// Whether the outcome is a lost block, with this as its first lost word.
fn is_lost(outcome: &Outcome, word: u8) -> bool {
    match outcome {
        Outcome::Restored(_, _) => false,
        Outcome::Lost(first) => *first == word,
    }
}

/// The first window of a stream.
fn first_window(alloc: Global, line: LineCode, stream: &[i8]) -> Result<Window, NoMemory> {
    let mut lock = Lock::new(alloc, line)?;
    let mut window = Window::new(alloc, line)?;
    lock.feed(part(stream, 0, lock.room()));
    lock.finish();
    lock.next_window(&mut window);
    Ok(window)
}

/// Whether the window of the frame at the stream's start is given back as it was, with the frame that was sent.
fn first_frame_is_plain(alloc: Global, stream: &[i8]) -> Result<bool, NoMemory> {
    let window = first_window(alloc, STANDARD, stream)?;
    let all = done_by(&mut FrameWork::new(alloc)?, window);
    Ok(
        all.window.position() == 0
            && all.window.positive()
            && all.window.symbols() == part(stream, MARKER_SYMBOLS, WINDOW_SYMBOLS)
            && is_plain(&all.outcome),
    )
}

/// Counts the restored frames of 7F in a stream that is fed as bytes.
fn plain_frames(alloc: Global, line: LineCode, bytes: &[u8]) -> Result<u32, NoMemory> {
    let mut lock = Lock::new(alloc, line)?;
    let mut window = Window::new(alloc, line)?;
    let mut work = FrameWork::new(alloc)?;
    let mut plain = 0u32;
    if bytes.len() > lock.room() {
        return Ok(0);
    }
    lock.feed_bytes(bytes);
    lock.finish();
    for _ in 0..8u8 {
        if !matches!(lock.next_window(&mut window), Step::Window) {
            return Ok(plain);
        }
        if is_plain(&work.outcome(&window)) {
            plain = plain.wrapping_add(1);
        }
    }
    Ok(plain)
}

#[test]
fn windows_lead_to_frames(rt: HostRuntime) -> Result<(), Fail> {
    let alloc = rt.alloc();
    let stream = sent_symbols(alloc)?;
    assert!(rt; first_frame_is_plain(alloc, &stream)?);
    let four = bytes_of(alloc, part(&stream, 0, LOCK_SYMBOLS))?;
    assert!(rt; plain_frames(alloc, STANDARD, &four)? == 4);
    Ok(())
}

/// Whether the frame at the stream's start is found there with this polarity, and is restored to what was sent.
fn is_restored(
    alloc: Global,
    line: LineCode,
    stream: &[i8],
    positive: bool,
) -> Result<bool, NoMemory> {
    let window = first_window(alloc, line, stream)?;
    let outcome = FrameWork::new(alloc)?.outcome(&window);
    Ok(window.position() == 0 && window.positive() == positive && is_plain(&outcome))
}

#[test]
fn a_frame_of_each_line_code_is_restored(rt: HostRuntime) -> Result<(), Fail> {
    let alloc = rt.alloc();
    for line in LINES {
        let mut stream = coded_frames(alloc, line, 1)?;
        let LineCode { marks, inverted } = line;
        assert!(rt;
            is_restored(alloc, line, &stream, true)?,
            "marks {marks}, {inverted}"
        );
        turn(&mut stream);
        assert!(rt;
            is_restored(alloc, line, &stream, false)?,
            "turned, marks {marks}, {inverted}"
        );
    }
    Ok(())
}

/// The restored frames that a lock of one line code finds in four frames of another.
fn restored_frames(alloc: Global, sent: LineCode, sought: LineCode) -> Result<u32, NoMemory> {
    let stream = coded_frames(alloc, sent, 4)?;
    plain_frames(alloc, sought, &bytes_of(alloc, &stream)?)
}

#[test]
fn frames_are_found_under_their_own_line_code_alone(rt: HostRuntime) -> Result<(), Fail> {
    let alloc = rt.alloc();
    for sent in 0..4usize {
        for sought in 0..4usize {
            let count = restored_frames(alloc, LINES[sent], LINES[sought])?;
            let wanted = if sent == sought { 4 } else { 0 };
            assert!(rt;
                count == wanted,
                "sent {sent}, sought {sought}: {count} frames"
            );
        }
    }
    Ok(())
}

#[test]
fn zeros_and_noise_have_outcomes(rt: HostRuntime) -> Result<(), Fail> {
    let alloc = rt.alloc();
    let mut work = FrameWork::new(alloc)?;
    // A block of zeros is the randomiser's sequence, whose words are codewords.
    let zeros = work.outcome(&Window::new(alloc, STANDARD)?);
    assert!(rt; begins(&zeros, &[0xFF, 0x48, 0x0E, 0xC0, 0x9A]));
    let noise = work.outcome(&first_window(alloc, STANDARD, &drawn_stream(alloc, 1)?)?);
    assert!(rt; is_lost(&noise, 0));
    Ok(())
}
