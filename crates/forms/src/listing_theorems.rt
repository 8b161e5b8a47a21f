// What a listing is, and what explain lists: theorems on the definitions, each carried by a function that does
// nothing.
ghost use Rattle.forms.specs.Theorems.ListingTheorems.{ListingIsRight, RecordsAreRight, DepthBoundNeverMet};
ghost use Rattle.forms.specs.Theorems.ListingTheorems.{MarksTakenBack};
ghost use Rattle.forms.specs.Theorems.ListingOrder.{FirstPremiseFirst};
ghost use Rattle.forms.specs.Theorems.ExplainTheorems.{ExplainLists, ExplainAbsentHaveNone};

// Each transition is listed once and after its premises, in turn; those of the sequence are listed, and nothing else
// than what they rest on, all of it done; their bytes are 3.
pub fn listing_is_right()
    ensures theorem { ListingIsRight }
{}

// Of two premises that are new with their transition the first stands before the second, unless it rests on it.
pub fn first_premise_first()
    ensures theorem { FirstPremiseFirst }
{}

// Each record says that its transition is given, or which rule and which middle state made it.
pub fn records_are_right()
    ensures theorem { RecordsAreRight }
{}

// The bound on the depth in the definition of a visit is never met.
pub fn depth_bound_never_met()
    ensures theorem { DepthBoundNeverMet }
{}

// Taking the marks of a listing back gives the table as it was.
pub fn marks_taken_back()
    ensures theorem { MarksTakenBack }
{}

// All that holds of what explain leaves and writes.
pub fn explain_lists()
    ensures theorem { ExplainLists }
{}

// What is absent after an explain has no entry among the reasons.
pub fn explain_absent_have_none()
    ensures theorem { ExplainAbsentHaveNone }
{}
