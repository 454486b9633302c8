//! Jobs through a ring, whoever does them: the one loop for all that share work out.
//!
//! A `JobSource` gives jobs one after another, and keeps what comes of them, in the same order. It says by terms of its
//! own what it has become by the jobs given and kept (`SourceTerms`; `JobSources` in specs/), so that a layer above
//! learns what the work came to and nothing of rings. A `WorkerPool` is a ring with nothing in it and all who
//! work at it. `drive_alone` leads on the caller's thread, and returns for every job source. `drive_beside` has a
//! thread for each seat, and may wait. `drive` takes either, by the number of seats.
//!
//! All make the same rounds (`next_round`): keep what came of the oldest job, or else put a job, or else do one. So no
//! job is put before what is done is kept (`PutsAfterLooking`), but for a job source that gives its jobs at once: the
//! next one is put as soon as one is kept.
//! What a round keeps is `MayGoOn` (`Rounds`): the jobs of the ring are those that the job source gave, and those taken
//! are those of which it kept what came. So the order comes from the job source alone, and not from who finished first.
#![tactic(auto)]

mod alone;
mod beside;
mod drive_fault;
mod job_source;
mod round;
mod worker_pool;

pub use alone::drive_alone;
pub use beside::{drive, drive_beside};
pub use drive_fault::DriveFault;
pub use job_source::{JobSource, NextJob};
pub use worker_pool::WorkerPool;
