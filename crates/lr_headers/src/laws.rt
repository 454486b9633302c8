//! What holds of all headers.

ghost use Rattle.lr_headers.specs.Laws.{HeaderFaultsAreOne, HeadersAreOne, HeadersAreRead, HeadersHaveNoFault};
ghost use Rattle.lr_headers.specs.Laws.{StampTextsAreOne, StampsHaveTexts};

/// A file proper has at most one header: its records tile the header's bytes in one way.
pub fn headers_are_one()
    ensures { HeadersAreOne }
{}

/// A file proper with a header has no fault. So `Records::read` succeeds exactly where there is a header.
pub fn headers_have_no_fault()
    ensures { HeadersHaveNoFault }
{}

/// There is one first fault.
pub fn header_faults_are_one()
    ensures { HeaderFaultsAreOne }
{}

/// Each file proper has a header or a first fault, and `header_of` gives it.
pub fn headers_are_read()
    ensures { HeadersAreRead }
{}

/// A time stamp has a text, which `stamp_text` of `specs/Stamps` gives.
pub fn stamps_have_texts()
    ensures { StampsHaveTexts }
{}

/// A time stamp has one text.
pub fn stamp_texts_are_one()
    ensures { StampTextsAreOne }
{}
