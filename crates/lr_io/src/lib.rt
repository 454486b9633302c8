//! Where bytes come from and where they go: a source and a sink, in memory and over std's streams.
//!
//! Each object has a count of its own faults, a number of 64 bits that never falls, and may tell its bytes: what a
//! source has left, what a sink holds. A call fails only where the count rises. What a call says of bytes holds for an
//! object that tells them, and whether it does never changes. `MemSource`, `MemSink` and `SureSource` tell their bytes,
//! and `ReadSource` where the readers of its type do; `WriteSink` and `SureSink` tell nothing. The layers above rest on
//! `Source::take` and on `put_all`. The definitions are `MovesMost` of `specs/Places`, which says how many bytes a call
//! of an object in memory moves, and `PutsPart` of `specs/Pieces`.
//!
//! `ReadSource` and `WriteSink` stand on a `Reader` and a `Writer`, which count the errors that they gave. A call that
//! succeeds met none of these, and one that fails met exactly one. `StdReader` and `StdWriter` make such ones of a
//! reader and a writer of std.
//!
//! What a source says of one call, `asked`, is so of some of its states alone: of a `MemSource` those between which no
//! stated place lies (`MayAnswer` of `specs/MemSource`), of a `ReadSource` those whose readers' counts of calls are one
//! apart (`ReadsOnce` of `specs/Streams`). So a contract that speaks of the calls on any source says something of them.
#![tactic(auto)]

mod places;
mod readers;
mod sink;
mod source;
mod writers;

pub use readers::{Reader, StdReader};
pub use sink::{MemSink, Sink, SureSink, WriteSink, put_all};
pub use source::{MemSource, ReadSource, Source, SureSource};
pub use writers::{StdWriter, Writer};
