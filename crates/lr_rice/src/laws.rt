//! What holds of all coded lines.

ghost use Rattle.lr_rice.specs.Laws.{FaultsAreOne, LinesAreOne, LinesAreRead, LinesAreWhole, LinesHaveNoFault};

/// No coding of lines is a proper prefix of another one, so that the samples are one list.
pub fn lines_are_one()
    ensures { LinesAreOne }
{}

/// What begins with a coding of this many lines has no fault in them.
pub fn lines_have_no_fault()
    ensures { LinesHaveNoFault }
{}

/// There is one first fault.
pub fn faults_are_one()
    ensures { FaultsAreOne }
{}

/// Each string of bits begins with a coding of this many lines, or has a fault in them.
pub fn lines_are_read()
    ensures { LinesAreRead }
{}

/// Lines have as many samples as columns, each of them in range.
pub fn lines_are_whole()
    ensures { LinesAreWhole }
{}
