//! Several recordings onto one shelf, each by a thread of its own.
//!
//! A `Bundle` is bytes: how many streams there are, 1 to 16, and then each stream, its length in front of it. A stream
//! is the soft symbols of one downlink, a signed byte each. `files_of` gives its mission files, as `Streams` in specs/
//! defines them.
//!
//! `run_downlinks` has a thread for each downlink, which appends the downlink's files to the shelf, in their order. The
//! shelf and its disk lie in a `Book` under a lock. Nothing is known of a locked value but what its type keeps, so the
//! type of a book names what the run began with (`RunStart`) and keeps the rest (`Books.KeepsBook`): the files appended
//! so far are a merge of the downlinks' files (`Merge`), and shelf and disk stand for these. What is left over once the
//! threads have ended the caller appends. The theorem on the whole run is `Runs.MergesOver`, the contract of
//! `run_downlinks`. A `Receipt` says which entry of the shelf a file is.
#![tactic(auto)]

mod book;
mod bundle;
mod downlinks;
mod fault;
mod files;
mod laws;
mod member;
mod order;
mod receipt;
mod receipts;
mod rest;
mod run;
mod run_start;
mod sizes;

pub use book::Book;
pub use bundle::Bundle;
pub use downlinks::run_downlinks;
pub use fault::BundleFault;
pub use files::files_of;
pub use laws::{
    each_file_has_a_receipt, full_where_all_do_not_fit, merges_keep_the_order,
    receipts_come_in_order,
};
pub use receipt::Receipt;
pub use receipts::Receipts;
pub use run::{Run, RunEnd};
pub use run_start::RunStart;
pub use sizes::{MOST_BUNDLE_BYTES, MOST_DOWNLINKS, MOST_STREAM_SYMBOLS};
