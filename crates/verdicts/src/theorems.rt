// What holds of the definitions of specs/. A function here does nothing; its contract is the theorem, so that the
// check of the crate proves the statement as it stands.
ghost use Rattle.verdicts.specs.Theorems.Meant.{CodeIsMeant, GrowingIsMeant, VerdictsAreMeant};

// The computed code of a symbol is the one that the papers' sets give it.
pub fn code_is_meant()
    ensures theorem { CodeIsMeant }
{}

// The computed cycle of the useful rules is what growing means.
pub fn growing_is_meant()
    ensures theorem { GrowingIsMeant }
{}

// Codes, empty and growing of a call that is not refused are what they mean, both ways.
pub fn verdicts_are_meant()
    ensures theorem { VerdictsAreMeant }
{}
