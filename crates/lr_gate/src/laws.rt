//! The laws of the ring.

ghost use Rattle.lr_gate.specs.Cells.{AlwaysShowsMachine, WordsTellMachine};
ghost use Rattle.lr_gate.specs.Moves.{StepsAreMoves};

use lr_gatecore::Work;

/// Whatever the table of a ring is between two steps, it shows a state of the machine: the rule cell by cell.
pub fn a_ring_shows_the_machine<W: Work>()
    ensures { AlwaysShowsMachine W.gives }
{}

/// The stores of put, finish, take and stop and the exchange of a claim are the moves of these names of the machine
/// shown.
pub fn steps_of_a_ring_are_moves<W: Work>()
    ensures { StepsAreMoves W.gives }
{}

/// A table shows one machine, and a step that changes no word and takes no job leaves it as it is.
pub fn words_tell_the_machine<W: Work>()
    ensures { WordsTellMachine W.gives }
{}
