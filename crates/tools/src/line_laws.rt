//! A law of the last line of `jose-set`, as the contract of a function that does nothing.
ghost use Rattle.tools.specs.ReportLaws.{LinesArePrinted, TextsArePrinted};

/// A name or a thumbprint is shown in printable ASCII alone, and so is the whole line, but for its line feeds.
pub fn texts_are_printed()
    ensures texts { TextsArePrinted }
    ensures lines { LinesArePrinted }
{}
