//! `downlinks`: the mission files of several recordings come onto one shelf, and each has a receipt.
//!
//! The source gives a bundle of recordings, which is taken whole (`take_bundle`). `run_downlinks` of `lr_downlinks`
//! puts the files of its downlinks onto the shelf, a thread for each downlink. Then the receipts are put, sorted by
//! downlink and place (`put_receipts`). `DownlinksRun` in specs/ says what the call does to source, disk and `out`,
//! for each cause.
#![tactic(auto)]

mod receipts;
mod run;
mod taking;

pub use run::downlinks;
