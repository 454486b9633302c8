//! What reads the input, with the memory that it takes.
use crate::consumer::Consumer;
use crate::read_counts::ReadCounts;
use crate::reader_parts::ReaderParts;
use crate::symbol_parts::SymbolParts;
use crate::unit_loop::read_form;
use crate::windows::{read_by_all, read_windows};
use lr_bits::NoMemory;
use lr_forms::Input;
use lr_frame::Hand;
use lr_gatecore::MOST_SEATS;
use lr_io::Source;
use std::alloc::Global;
use std::marker::Model;
use std::sync::Wait;
use std::thread::Threads;

/// Reads the input once, with all memory that this takes. Of symbols, some work on windows with a hand each: the
/// caller, and a thread for each other worker.
#[derive(Drop)]
pub struct Reader<H: Hand> {
    parts: ReaderParts<H>,
    workers: u32,
    most: u64,
}

impl<H: Hand> Model for Reader<H> {
    ghost use Rattle.lr_reading.specs.Readers.{ReaderView};

    ghost Value = { ReaderView };

    ghost use Rattle.lr_reading.specs.Parts.{input_of_parts, shared_of, IsReadyFor};

    ghost view = { λ r. record {
      input = input_of_parts r.parts;
      workers = r.workers;
      most = r.most;
      shared = shared_of r.parts;
    } };

    ghost invariant = { λ r. IsReadyFor r.workers r.most r.parts };
}

impl<H: Hand> Reader<H> {
    ghost use Rattle.std.specs.Prelude.{◌≡◌, ◌≤◌, [], IfOk};
    ghost use Rattle.lr_reading.specs.Inputs.{MayTake};
    ghost use Rattle.lr_reading.specs.Readers.{shared_by, leeway_for};
    ghost use Rattle.lr_reading.specs.Runs.{IsLed, course_of, lent};

    /// All memory that reading this input takes. At most `most` bytes will be taken. This many work on windows, the
    /// caller among them; each has a hand that is made with these tools.
    pub fn new(
        alloc: Global,
        input: Input,
        workers: u32,
        most: u64,
        tools: &H::Tools,
    ) -> Result<Reader<H>, NoMemory>
        requires workers { (1 ≤ workers) × (workers ≤ MOST_SEATS) }
        requires most { MayTake input most }
        ensures { IfOk result (λ reader. reader ≡ record {
          input = input;
          workers = workers;
          most = most;
          shared = shared_by input workers;
        }) }
    {
        let parts = match input {
            Input::Symbols(decoding) => {
                ReaderParts::Symbols(SymbolParts::<H>::new(alloc, decoding, most, workers, tools)?)
            }
            Input::Units(form) => ReaderParts::Units(form),
        };
        Ok(Reader {
            parts,
            workers,
            most,
        })
    }

    /// Leads the consumer through all that comes of the input, on the caller's thread. It takes no memory.
    pub fn read_alone<S: Source, C: Consumer>(
        self,
        source: &mut S,
        consumer: &mut C,
    ) -> Result<ReadCounts, C::Cause>
        requires alone { self.workers ≡ 1 }
        requires few { self.most ≤ C.most }
        requires ready { (c : C) × C.took c [] consumer.old }
        ensures { IsLed (course_of S.Source C.took self.input self.most (leeway_for self.input self.workers))
            C.stopped result (lent source.old consumer.old) (lent source.new consumer.new) }
    {
        let Reader {
            parts,
            workers: _,
            most,
        } = self;
        match parts {
            ReaderParts::Symbols(symbol_parts) => read_windows(symbol_parts, source, consumer),
            ReaderParts::Units(form) => read_form(form, most, source, consumer),
        }
    }

    /// Does what `read_alone` does, where more may work. A thread is started for each worker but the caller. Where
    /// there is no other worker, and of units, none is.
    pub fn read<R: Threads + Wait + Sync, S: Source, C: Consumer>(
        self,
        rt: &R,
        source: &mut S,
        consumer: &mut C,
    ) -> Result<ReadCounts, C::Cause>
        requires few { self.most ≤ C.most }
        requires ready { (c : C) × C.took c [] consumer.old }
        ensures { IsLed (course_of S.Source C.took self.input self.most (leeway_for self.input self.workers))
            C.stopped result (lent source.old consumer.old) (lent source.new consumer.new) }
    {
        let Reader {
            parts,
            workers: _,
            most,
        } = self;
        match parts {
            ReaderParts::Symbols(symbol_parts) => read_by_all(rt, symbol_parts, source, consumer),
            ReaderParts::Units(form) => read_form(form, most, source, consumer),
        }
    }
}
