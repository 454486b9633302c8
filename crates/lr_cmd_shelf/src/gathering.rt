//! What a command over entries has put and noted so far.

use lr_segment::Assembly;

/// What `assemble` keeps of the segments so far: their assembly, if there is one, how many were added, and how many
/// were skipped.
#[derive(Drop)]
pub(crate) struct Gathering {
    pub(crate) assembly: Option<Assembly>,
    pub(crate) added: u64,
    pub(crate) skipped: u64,
}

impl Gathering {
    ghost use Rattle.std.specs.Prelude.{[]};
    ghost use Rattle.lr_cmd_shelf.specs.Gathered.{GathersMembers};

    /// No segments yet.
    pub(crate) fn new() -> Self
        ensures { GathersMembers [] 0 result }
    {
        Gathering {
            assembly: None,
            added: 0,
            skipped: 0,
        }
    }
}
