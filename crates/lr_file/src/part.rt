//! Which part of its file a packet carries, as its sequence flags say (CCSDS 133.0-B, section 4.1.3.4).

ghost use Rattle.std.specs.Prelude.{◌≡◌};
ghost use Rattle.lr_file.specs.Steps.{part_by_flags};

/// Which part of its file a packet brings (CCSDS 133.0-B, section 4.1.3.4, the sequence flags).
#[derive(Clone, Copy)]
pub enum Part {
    /// The first body of several.
    First,
    /// One between the first and the last.
    Between,
    /// The last body of several.
    Last,
    /// All of the file.
    Single,
}

/// The part that these flags tell: 1 the first, 0 one between, 2 the last and 3 all.
pub fn part_of(flags: u8) -> Part
    ensures { result ≡ part_by_flags flags }
{
    match flags {
        1 => Part::First,
        0 => Part::Between,
        2 => Part::Last,
        _ => Part::Single,
    }
}
