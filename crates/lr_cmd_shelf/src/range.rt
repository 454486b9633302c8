//! Which entries of a shelf a command reads.
ghost use Rattle.std.specs.Prelude.{◌≡◌, ◌≤◌, IfSome};
ghost use Rattle.lr_cmd_shelf.specs.Files.{entries_between, one_entry};

/// Numbers of entries: from one on, and before another.
#[derive(Clone, Copy)]
pub struct Range {
    /// The first number.
    pub from: u64,
    /// The number after the last one.
    pub to: u64,
}

impl Range {
    /// The one entry of this number, if there are enough.
    pub(crate) fn one(number: u64, count: u64) -> Option<Range>
        ensures is { result ≡ one_entry number count }
        ensures ordered { IfSome result (λ range. range.from ≤ range.to) }
        ensures inside { IfSome result (λ range. range.to ≤ count) }
    {
        if number < count {
            Some(Range {
                from: number,
                to: number + 1,
            })
        } else {
            None
        }
    }

    /// The entries from one number up to another, if the first isn't greater and there are enough.
    pub fn between(from: u64, to: u64, count: u64) -> Option<Range>
        ensures is { result ≡ entries_between from to count }
        ensures ordered { IfSome result (λ range. range.from ≤ range.to) }
        ensures inside { IfSome result (λ range. range.to ≤ count) }
    {
        if from <= to && to <= count {
            Some(Range { from, to })
        } else {
            None
        }
    }
}
