//! The commands by name, and what the words after each name look like.
ghost use Rattle.std.specs.Prelude.{◌≡◌};
ghost use Rattle.lr_words.specs.Shapes.{shape_named, can_write, runs_alone};

use crate::command::{FileAction, FrameLines, ShelfAction};

/// What the words after a command's name look like.
#[derive(Clone, Copy)]
pub(crate) enum Shape {
    /// `CAPACITY`
    Capacity,
    /// No words.
    Nothing(ShelfAction),
    /// `NUMBER`
    Number(FileAction),
    /// `[--symbols N]`
    Symbols(FrameLines),
    /// `[--input FORM] [--workers W] [--symbols N] [--line CODE] [--g2 G2]`
    Intake,
    /// The same, and `[--mend N]`
    MendedIntake,
    /// `[--line CODE] [--g2 G2]`
    Line,
    /// `[--workers W]`
    Workers,
    /// `FROM TO APID IMAGE`
    Segments,
    /// `FROM TO WRONG [--line CODE] [--g2 G2]`
    Sent,
    /// `NUMBER BLOCK`
    Block,
    /// `START FRAMES WRONG [--output FORM]`
    Made,
    /// `START FRAMES WRONG [--workers W]`
    Tried,
}

/// What the words after this name look like, if it names a command.
pub(crate) fn shape_of(name: &str) -> Option<Shape>
    ensures { result ≡ shape_named name.now }
{
    match name {
        "init" => Some(Shape::Capacity),
        "receive" => Some(Shape::MendedIntake),
        "downlinks" => Some(Shape::Line),
        "list" => Some(Shape::Nothing(ShelfAction::List)),
        "show" => Some(Shape::Number(FileAction::Show)),
        "extract" => Some(Shape::Number(FileAction::Extract)),
        "export" => Some(Shape::Number(FileAction::Export)),
        "render" => Some(Shape::Workers),
        "assemble" => Some(Shape::Segments),
        "verify" => Some(Shape::Nothing(ShelfAction::Verify)),
        "discard" => Some(Shape::Number(FileAction::Discard)),
        "repack" => Some(Shape::Block),
        "transmit" => Some(Shape::Sent),
        "decode" => Some(Shape::Intake),
        "frames" => Some(Shape::Symbols(FrameLines::Frames)),
        "packets" => Some(Shape::Symbols(FrameLines::Packets)),
        "make" => Some(Shape::Made),
        "trial" => Some(Shape::Tried),
        _ => None,
    }
}

impl Shape {
    /// Whether a command whose words look like this runs on one thread.
    pub(crate) fn runs_alone(self) -> bool
        ensures { result ≡ runs_alone self }
    {
        !matches!(self, Shape::Line)
    }

    /// Whether a command whose words look like this may change the shelf.
    pub(crate) fn can_write(self) -> bool
        ensures { result ≡ can_write self }
    {
        matches!(
            self,
            Shape::Capacity
                | Shape::MendedIntake
                | Shape::Line
                | Shape::Number(FileAction::Discard)
                | Shape::Block
                | Shape::Tried
        )
    }
}
