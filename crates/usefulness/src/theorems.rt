// What holds of the definitions of specs/. A function here does nothing; its contract is the theorem, so that the
// check of the crate proves the statement as it stands.
ghost use Rattle.usefulness.specs.Theorems.Meant.{ProductiveIsMeant, UsefulIsMeant, UsefulRulesAreMeant};

// The computed productive symbols are those that derive a terminal string.
pub fn productive_is_meant()
    ensures theorem { ProductiveIsMeant }
{}

// The computed useful symbols are the papers'.
pub fn useful_is_meant()
    ensures theorem { UsefulIsMeant }
{}

// The computed useful rules are those whose symbols are all useful.
pub fn useful_rules_are_meant()
    ensures theorem { UsefulRulesAreMeant }
{}
