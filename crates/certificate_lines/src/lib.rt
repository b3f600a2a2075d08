//! What the text of a certificate is, and at which line another text stops to be the beginning of one: definitions and
//! laws alone.
#![tactic(auto)]

ghost use Rattle.certificate_lines.specs.Laws.{HeadsAreRead, LinesAreRead, OneAnswer, StopsInTwoCases, TextsAreOne, TextsAreReadBack};
ghost use Rattle.certificate_lines.specs.Reading.{ReadingIsRight};

/// No text is that of two certificates.
pub fn texts_are_one()
    ensures { TextsAreOne }
{}

/// Lines are read to some state exactly where a certificate begins with them, and to the end exactly where they are one's.
pub fn lines_are_read()
    ensures { LinesAreRead }
{}

/// A text up to a line feed begins a certificate's exactly where it is that of lines that are read to some state.
pub fn heads_are_read()
    ensures { HeadsAreRead }
{}

/// Reading line by line stops where the text stops to begin a certificate's.
pub fn reading_is_right()
    ensures { ReadingIsRight }
{}

/// A text is read as one certificate or stops at one line.
pub fn one_answer()
    ensures { OneAnswer }
{}

/// The line at which a text stops is that of the two cases.
pub fn stops_in_two_cases()
    ensures { StopsInTwoCases }
{}

/// The text of a certificate that is not too heavy is read as that certificate.
pub fn texts_are_read_back()
    ensures { TextsAreReadBack }
{}
