//! Trials of the station: calls of `station` over sources, disks and sinks in memory, and over real files; and what a
//! contract says of a run over one source (`cut`). `call` and `steps` are what other crates of trials share.
#![tactic(auto)]

#[cfg(test)]
mod blocks;
pub mod call;
pub mod cut;
#[cfg(test)]
mod discards;
#[cfg(test)]
mod frames;
#[cfg(test)]
mod init;
#[cfg(test)]
mod kept;
#[cfg(test)]
mod limits;
#[cfg(test)]
mod listed;
#[cfg(test)]
mod mended;
#[cfg(test)]
mod packets;
#[cfg(test)]
mod read;
#[cfg(test)]
mod receive;
#[cfg(test)]
mod repacks;
pub mod steps;
#[cfg(test)]
mod streams;
#[cfg(test)]
mod words;
