// What is true of narrow numbers, for callers that reason about them.

ghost use Rattle.frac128.specs.Narrow.{DivisorIsGreatest, NarrowTests};
ghost use Rattle.frac128.specs.Numeral.{NumeralTest};

/// Whether a number, a sum or a numeral is narrow is told by a test.
pub fn narrow_is_tested()
    ensures tests { NarrowTests }
    ensures numerals { NumeralTest }
{}

/// The divisor that the rule of a sum speaks of is the greatest common one.
pub fn divisor_is_greatest()
    ensures { DivisorIsGreatest }
{}
