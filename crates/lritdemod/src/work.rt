//! The program's work: samples in, symbols out, and a line each second.

ghost use Rattle.std.specs.Prelude.{◌≡◌, ◌≤◌, length};

use crate::cause::Cause;
use crate::input::{After, Filled, Input};
use crate::plan::{Plan, Told, plan_of};
use crate::report::{Json, Report};
use crate::sigmf::told_by;
use crate::words::Request;
use lr_demod::{BLOCK_SAMPLES, Demodulator, Form, WaveFault};
use std::fs::{self, File, OpenFile, OpenOptions};
use std::io::{self, ErrorKind, Read, Seek, SeekFrom, Write};
use std::num::nearest_u64_to_f64;

/// The bytes of the greatest block.
const BLOCK_BYTES: usize = 131_072;

/// The lines after which the file of the lines begins anew, so that it doesn't grow for ever: an hour's.
const MOST_LINES: u32 = 3_600;

/// What tells how the reception goes.
#[derive(Drop)]
struct Lines {
    file: Option<File>,
    is_quiet: bool,
    rate: f64,
    /// The samples so far, and at the last line.
    samples: u64,
    told: u64,
    /// The lines that the file has.
    count: u32,
}

/// A line's trouble is no trouble of the reception, so it is passed over.
fn pass_over(_result: io::Result<()>) {}

impl Lines {
    /// Whether a second of signal has passed since the last line.
    fn is_due(&self) -> bool {
        nearest_u64_to_f64(self.samples - self.told.min(self.samples)) >= self.rate
    }

    /// Writes a line to the file.
    fn write_json(&mut self, rt: &HostRuntime, report: Report) -> io::Result<()> {
        let json = Json { report };
        let line = format!(in rt.alloc(); "{json}\n")?;
        let Some(file) = &mut self.file else {
            return Ok(());
        };
        if self.count >= MOST_LINES {
            file.set_len(0)?;
            file.seek(SeekFrom::Start(0))?;
            self.count = 0;
        }
        self.count = self.count.saturating_add(1);
        file.write_all(line.as_bytes())
    }

    /// Tells where a second has passed, or the input has ended.
    fn tell(
        &mut self,
        rt: &HostRuntime,
        demodulator: &mut Demodulator,
        samples: usize,
        is_last: bool,
    ) {
        self.samples = self.samples.saturating_add(samples as u64);
        if !self.is_due() && !(is_last && self.samples > self.told) {
            return;
        }
        self.told = self.samples;
        let report = Report {
            seconds: nearest_u64_to_f64(self.samples) / self.rate,
            reception: demodulator.take_reception(),
        };
        if !self.is_quiet {
            pass_over(eprintln!(rt; "lritdemod: {report}"));
        }
        pass_over(self.write_json(rt, report));
    }
}

fn put(out: &mut [u8], soft: &[i8]) -> usize
    ensures { result ≤ length out.old }
{
    let count = soft.len().min(out.len());
    for k in 0..count {
        out[k] = soft[k].cast_unsigned();
    }
    count
}

/// The bytes of a block of this form.
fn block_bytes(form: Form) -> usize
    ensures { result ≤ BLOCK_BYTES }
{
    (form.size() * BLOCK_SAMPLES).min(BLOCK_BYTES)
}

/// Demodulates the first `count` bytes of the block into `symbols`, and answers how many these are.
fn demodulate(
    demodulator: &mut Demodulator,
    form: Form,
    block: &[u8],
    count: usize,
    symbols: &mut [u8],
) -> usize
    ensures { result ≤ length symbols.old }
{
    let count = count.min(block.len());
    put(symbols, demodulator.demodulate(form, &block[..count]))
}

/// Tells of a recording that ends inside a sample.
fn tell_torn(rt: &HostRuntime, form: Form, filled: Filled) {
    let rest = filled.count % form.size().max(1);
    if rest > 0 {
        pass_over(eprintln!(rt;
            "lritdemod: the input ends inside a sample: {rest} bytes are left over"
        ));
    }
}

/// What is left to do after a block.
#[derive(Clone, Copy)]
enum Next {
    Block,
    End,
}

/// Takes a block, and writes its symbols.
fn turn<R: Read + Drop>(
    rt: &HostRuntime,
    plan: Plan,
    demodulator: &mut Demodulator,
    input: &mut Input<R>,
    lines: &mut Lines,
    block: &mut [u8],
    symbols: &mut [u8],
) -> Result<Next, Cause> {
    let room = block_bytes(plan.form).min(block.len());
    let filled = input.take(&mut block[..room]);
    let made = demodulate(demodulator, plan.form, block, filled.count, symbols);
    let end = made.min(symbols.len());
    let is_last = filled.after != After::More;
    if io::writer(rt).write_all(&symbols[..end]).is_err() {
        return Err(Cause::Output);
    }
    lines.tell(
        rt,
        demodulator,
        filled.count / plan.form.size().max(1),
        is_last,
    );
    match filled.after {
        After::More => Ok(Next::Block),
        After::End => {
            tell_torn(rt, plan.form, filled);
            Ok(Next::End)
        }
        After::Failed => Err(Cause::Input),
    }
}

/// Demodulates all of the input.
fn demodulate_all<R: Read + Drop>(
    rt: &HostRuntime,
    plan: Plan,
    input: &mut Input<R>,
    lines: &mut Lines,
) -> Result<(), Cause> {
    let mut demodulator = Demodulator::new(rt.alloc(), &plan.settings)?;
    let mut block = vec![in rt.alloc(); 0u8; BLOCK_BYTES]?;
    let mut symbols = vec![in rt.alloc(); 0u8; BLOCK_SAMPLES]?;
    for _ in 0..u64::MAX {
        let next = turn(
            rt,
            plan,
            &mut demodulator,
            input,
            lines,
            &mut block,
            &mut symbols,
        )?;
        if let Next::End = next {
            break;
        }
    }
    Ok(())
}

/// Says on standard error why a call is refused.
fn refuse(rt: &HostRuntime, text: &str) -> Cause {
    pass_over(eprintln!(rt; "lritdemod: {text}"));
    Cause::Usage
}

fn wave_text(fault: WaveFault) -> &'static str {
    match fault {
        WaveFault::Channels => "the WAV file doesn't have two channels, I and Q",
        WaveFault::Form => "the WAV file's numbers aren't of 8 or 16 bits, nor floats of 32",
        WaveFault::NoSamples => "the WAV file has no samples, or a head that can't be read",
    }
}

/// What the recording says of itself.
fn told_of<R: Read + Drop>(
    rt: &HostRuntime,
    request: &Request<'_>,
    input: &mut Input<R>,
) -> Result<Option<Told>, Cause> {
    if let Some(path) = request.sigmf {
        return sigmf_told(rt, path);
    }
    match input.take_head() {
        Ok(Some(head)) => Ok(Some(Told {
            rate: std::num::nearest_u64_to_f64(head.rate as u64),
            form: head.form,
        })),
        Ok(None) => Ok(None),
        Err(fault) => Err(refuse(rt, wave_text(fault))),
    }
}

/// What SigMF's metadata in this file say.
fn sigmf_told(rt: &HostRuntime, path: &str) -> Result<Option<Told>, Cause> {
    let text = match fs::read_to_string(rt, path) {
        Ok(text) => text,
        Err(error) if error.kind() == ErrorKind::OutOfMemory => return Err(Cause::NoMemory),
        Err(_) => return Err(refuse(rt, "the file of --sigmf can't be read")),
    };
    match told_by(rt.alloc(), text.as_str()) {
        Ok(Some(told)) => Ok(Some(told)),
        Ok(None) => Err(refuse(
            rt,
            "the file of --sigmf has no rate, or a form other than cu8, ci8, ci16_le and cf32_le",
        )),
        Err(_) => Err(refuse(rt, "the file of --sigmf is no JSON")),
    }
}

/// The file of the lines of JSON.
fn status_file(rt: &HostRuntime, path: Option<&str>) -> Result<Option<File>, Cause> {
    let Some(path) = path else {
        return Ok(None);
    };
    match fs::create(rt, path) {
        Ok(file) => Ok(Some(file)),
        Err(_) => Err(refuse(rt, "the file of --status can't be written")),
    }
}

/// Names the options that the downlink's symbols want.
fn name_downlink(rt: &HostRuntime, request: &Request<'_>) {
    if let Some(downlink) = request.downlink
        && !request.is_quiet
    {
        let (name, options) = (downlink.name, downlink.options);
        pass_over(eprintln!(rt;
            "lritdemod: {name}: its symbols are for lritstation SHELF receive {options}"
        ));
    }
}

/// Does what a call asks for.
pub(crate) fn work(rt: &HostRuntime, request: &Request<'_>) -> Result<(), Cause> {
    let mut input = Input::new(rt.alloc(), rt.stdin())?;
    let told = told_of(rt, request, &mut input)?;
    let plan = match plan_of(request, told) {
        Ok(plan) => plan,
        Err(no_plan) => return Err(refuse(rt, no_plan.text())),
    };
    let mut lines = Lines {
        file: status_file(rt, request.status)?,
        is_quiet: request.is_quiet,
        rate: plan.settings.rate,
        samples: 0,
        told: 0,
        count: 0,
    };
    name_downlink(rt, request);
    demodulate_all(rt, plan, &mut input, &mut lines)
}
