// The last page: the operations, and what holds of them. Each claim is carried by a function with an empty body.
//
// Whatever its input, an operation gives just what its definition says, the answer and every byte of what is lent
// (crates operations and ropeclover; none asks for anything):
//
//     start, advance            start_of, advance_of              machine/specs/Operations
//     start, advance on bits    start_bits_of, advance_bits_of    bit_machine/specs/Operations
//     done count                done_count_of                     bit_machine/specs/Operations
//     ask, on bytes and bits    ask_of, ask_bits_of               forms/specs/Operations
//     explain                   explain_of                        forms/specs/Operations
//     verdicts                  verdicts_of                       verdicts/specs/Operation
//     showing                   shown_of                          job/specs/Show
//     binarize                  binarize_of                       long_jobs/specs/Operation
//     clean                     clean_of                          copies/specs/Operation
//
// What holds of single operations is carried beside the definitions, in theorems.rt of these crates: of the checks and
// ranks in job, of steps, counts, reasons and turns in machine, of bits in bit_machine, of acceptance and listings in
// forms, of codes, empty and growing in verdicts (over the papers' theorems in grammar), of what is written in
// long_jobs and copies. What holds of whole lists of calls, on a table of bytes or of bits, is carried here.
#![tactic(auto)]

ghost use contract.Monad.{fact};
ghost use Rattle.claims.specs.BitsAlike.{CallsAlike, RunsAlike};
ghost use Rattle.claims.specs.Filed.{FiledGrammars};
ghost use Rattle.claims.specs.FinishedTables.{FinishedTables};
ghost use Rattle.claims.specs.Turns.{TurnsInRuns};
ghost use Rattle.claims.specs.TwoRuns.{TwoRuns};
ghost use Rattle.claims.specs.WiderClasses.{WiderClasses};

// Demand 2: a table of bytes or of bits, finished from a job's start, holds the smallest set, and accepts just the
// forms that derive a string of the automaton. A plain clause is of Type 0; `fact` is the same at any level, here at that of
// statements about all sets.
pub fn finished_tables()
    ensures* theorem { fact 𝓤 FinishedTables }
{}

// Demand 3: two runs of a list of calls on bytes or on bits, the records in different orders, are alike, and the
// counts add up.
pub fn two_runs()
    ensures theorem { TwoRuns }
{}

// As long as only advances and explains have written since a start, turns fall from a transition to its premises.
pub fn turns_in_runs()
    ensures theorem { TurnsInRuns }
{}

// The proved grammars on file: what is said of each holds by the definitions.
pub fn filed_grammars()
    ensures theorem { FiledGrammars }
{}

// Every job that was accepted while P records had variables only is accepted, and every list of calls on it gives what
// it gave: past the checks all depends on the canonical job alone.
pub fn wider_classes()
    ensures theorem { WiderClasses }
{}

// A start on a bit table and on a byte table, whatever they hold, and each call on two that say the same, answers the
// same and leaves tables that say the same.
pub fn calls_alike()
    ensures theorem { CallsAlike }
{}

// So from a start, after any advances, both kinds of table are alike.
pub fn runs_alike()
    ensures theorem { RunsAlike }
{}
