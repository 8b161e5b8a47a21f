// What the job and the map are that an ABNF text is read into, and what its refusals count. Each theorem is carried by a
// function.
ghost use Rattle.abnf_jobs.specs.Theorems.Written.{SameStrings, AllRead, StartIsFirst, WrittenAccepted};
ghost use Rattle.abnf_jobs.specs.Theorems.Written.{WrittenInOrder, MapIsUsed};
ghost use Rattle.abnf_jobs.specs.Theorems.Counts.{CountedOnce, LimitsTrue};

// Each name derives by the text the strings that its variable derives by the job, read through the map.
pub fn same_strings()
    ensures theorem { SameStrings }
{}

// Each string of terminals that a name's variable derives can be read through the map.
pub fn all_read()
    ensures theorem { AllRead }
{}

// The start symbol is the variable of the first line's name.
pub fn start_is_first()
    ensures theorem { StartIsFirst }
{}

// The job passes the checks of the verdicts.
pub fn written_accepted()
    ensures theorem { WrittenAccepted }
{}

// Its rules stand behind S in the order of their ranks.
pub fn written_in_order()
    ensures theorem { WrittenInOrder }
{}

// The map has just the characters that the text's literals stand for, in ascending order.
pub fn map_is_used()
    ensures theorem { MapIsUsed }
{}

// Each name, letter, tail, character and rule is counted once.
pub fn counted_once()
    ensures theorem { CountedOnce }
{}

// What 18 and 7 refuse needs more than there may be.
pub fn limits_true()
    ensures theorem { LimitsTrue }
{}
