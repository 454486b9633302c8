//! Trials of the layers between frames and files, over the public calls alone: from frames to files, and from files to
//! frames and symbols. All expected values of the test stream are those of reference/make.py, a slow program of its own
//! that is written from the stream's definition in docs/STREAM.md, and those of the uplink are those of
//! reference/uplink.py, another one, which says in words what is sent.
#![tactic(auto)]

#[cfg(test)]
mod files;
#[cfg(test)]
mod mended_files;
#[cfg(test)]
mod mended_gaps;
#[cfg(test)]
mod mended_packets;
#[cfg(test)]
mod packets;
#[cfg(test)]
mod sent_drawn;
#[cfg(test)]
mod sent_files;
#[cfg(test)]
mod sent_sizes;
#[cfg(test)]
mod sent_symbols;
#[cfg(test)]
mod test_streams;
#[cfg(test)]
mod types;
