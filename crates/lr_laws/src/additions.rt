//! Laws of what is decided.

ghost use Rattle.lr_laws.specs.Additions.{AdditionsAreDecided, AdditionsAreOne};
ghost use Rattle.lr_laws.specs.Repacks.{RepacksHaveOutcomes};

/// A file can be coded anew, or there is a first refusal.
pub fn repacks_have_outcomes()
    ensures { RepacksHaveOutcomes }
{}

/// Over each shelf `discard` of each number decides something, and so does `repack` of each number and size of blocks.
pub fn additions_are_decided()
    ensures { AdditionsAreDecided }
{}

/// They decide one thing.
pub fn additions_are_one()
    ensures { AdditionsAreOne }
{}
