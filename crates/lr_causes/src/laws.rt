//! What is true of all causes.
ghost use Rattle.lr_causes.specs.Kinds.{HasOneKind};

/// Equal statuses mean equal causes, but for the values that their lines tell.
pub fn statuses_have_one_kind()
    ensures { HasOneKind }
{}
