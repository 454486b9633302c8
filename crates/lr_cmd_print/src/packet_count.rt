//! The packets counted so far.

ghost use Rattle.std.specs.Prelude.{◌≤◌};

/// How many packets there were, and how many good ones among them.
#[derive(Clone, Copy)]
pub(crate) struct PacketCount {
    pub packets: u64,
    pub good: u64,
    ghost fewer: { good ≤ packets },
}
