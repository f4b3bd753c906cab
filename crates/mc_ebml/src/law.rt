//! Laws about what is written, for a crate that writes a film and proves how it is read.
ghost use Rattle.mc_ebml.specs.Laws.{HeadsReadBack, CodedReadBack, CodedHaveWidth, IntegersReadBack, TextsReadBack, IntegersFit};

/// Heads, coded numbers, unsigned integers and texts are read back as they were written, wherever
/// they stand.
pub fn written_parts()
    ensures heads { HeadsReadBack }
    ensures coded { CodedReadBack }
    ensures coded_width { CodedHaveWidth }
    ensures integers { IntegersReadBack }
    ensures texts { TextsReadBack }
{}

/// An unsigned integer that is read in octets fits 64 bits.
pub fn fitting_integers()
    ensures { IntegersFit }
{}
