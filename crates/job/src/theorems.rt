// What an accepted job is, what the order of its records does not change, and what ranks and the number of states
// mean. Each theorem is carried by a function.
ghost use Rattle.job.specs.Theorems.InRange.{CheckAccepts, AcceptedInRange};
ghost use Rattle.job.specs.Theorems.OrderFree.{AcceptedAlike, SameJob, SameRules};
ghost use Rattle.job.specs.Theorems.RankCounts.{RankCounts, KeysInOrder, RanksInOrder};
ghost use Rattle.job.specs.Theorems.StateCount.{StateCount};
ghost use Rattle.job.specs.Theorems.WiderClasses.{PairsWidened, WiderChecks};

// The checks accept a job exactly where it is accepted by what its records are, whatever their order.
pub fn check_accepts()
    ensures theorem { CheckAccepts }
{}

// The numbers of an accepted job are in range.
pub fn accepted_in_range()
    ensures theorem { AcceptedInRange }
{}

// Of two jobs with the same records each is accepted if the other is.
pub fn accepted_alike()
    ensures theorem { AcceptedAlike }
{}

// Two accepted jobs with the same records have the same canonical job.
pub fn same_job()
    ensures theorem { SameJob }
{}

// Two accepted jobs with the same rule and S records say the same rules and start symbol.
pub fn same_rules()
    ensures theorem { SameRules }
{}

// A rule's rank is the number of rules that sort before it.
pub fn rank_counts()
    ensures theorem { RankCounts }
{}

// The sort key orders by field 1, kind byte, field 2 and field 3, and so do the ranks.
pub fn ranks_in_order()
    ensures keys { KeysInOrder }
    ensures ranks { RanksInOrder }
{}

// The number of states is the least that is above each state that a T, I or F record names.
pub fn state_count_is_least()
    ensures theorem { StateCount }
{}

// A wider table of classes changes the checks of those jobs alone that the narrower one refuses by 4, and the job's
// table is wider than one whose P records have variables only.
pub fn wider_checks()
    ensures checks { WiderChecks }
    ensures pairs { PairsWidened }
{}
