// The operations, one line each. No call needs anything of its input: whatever is wrong with it is refused, with a number
// and a place. The contract of each equates what it leaves, the answer and every byte that was lent, with the
// definition that is named here; it stands at the function itself.
#![tactic(auto)]

// Writes the table and the reasons that the job starts from, and answers its number of states: `start_of`
// (machine/specs/Operations).
pub use byte_table::operations::start;

// Makes n steps, fewer if finished, on any table whatever: `advance_of` (machine/specs/Operations). The order of
// examination (lowest place first) and the reason kept (the smallest offered) are the definition's; what holds of them
// stands in crate machine's specs/Theorems.
pub use byte_table::operations::advance;

// Whether a form is accepted on a lent table, which is only read: `ask_of` (forms/specs/Operations).
pub use asking::ask::ask;

// Starts, runs to the end, and lists why the form is accepted, along the accepting state sequence that comes first:
// `explain_of` (forms/specs/Operations).
pub use explaining::explain;

// Codes of the 64 symbols, and whether the language is empty and whether it grows; the table is scratch, left 0:
// `verdicts_of` (verdicts/specs/Operation).
pub use judging::operation::verdicts;

// The four bytes of the record that the job is refused for by 3 to 7, as a part of the job; else the empty part:
// `shown_of` (job/specs/Show). `shown` gives those bytes with where they stand: `shown_part_lem`.
pub use checks::show::{show_refused, shown};

// Writes a long job, whose rules have bodies of up to eight symbols, as an ordinary job, and answers its number of
// records: `binarize_of` (long_jobs/specs/Operation).
pub use binarize::operation::binarize;

// Writes the clean copy of a job, its useful rules with their variables numbered from 0, and answers its number of
// records: `clean_of` (copies/specs/Operation). What holds of the copy stands in crate copies' specs/Theorems.
pub use clean::operation::clean;

// Reads an ABNF text: writes its job and the map of its characters, and answers how many records and characters these
// are: `read_of` (abnf_jobs/specs/Operation). What holds of the job stands in crate abnf_jobs' specs/Theorems.
pub use reader::operation::read_abnf;

// Start on a bit table, of which it writes all of both halves: `start_bits_of` (bit_machine/specs/Operations).
pub use bit_table::operations::start as start_bits;

// Advance on a bit table, whatever it holds, by the steps of the byte table that says the same: `advance_bits_of`
// (bit_machine/specs/Operations). What holds of them stands in crate bit_machine's specs/Theorems.
pub use bit_table::operations::advance as advance_bits;

// Whether a form is accepted on a lent bit table, which is only read: `ask_bits_of` (forms/specs/Operations).
pub use asking::ask::ask_bits;

// The number of done places of a lent bit table, which is only read: `done_count_of` (bit_machine/specs/Operations).
pub use bit_table::operations::done_count;
