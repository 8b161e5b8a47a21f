// The C interface: each operation with its answer as a fixed array that is always written whole.
// include/ropeclover.h is its manual.
ghost use Rattle.std.specs.Prelude.{◌≡◌};
ghost use Rattle.job.specs.Show.{shown_part_lem};
ghost use Rattle.machine.specs.Table.{lent_of};
ghost use Rattle.machine.specs.Operations.{start_of, advance_of};
ghost use Rattle.forms.specs.Operations.{ask_of, ask_bits_of, explain_of};
ghost use Rattle.verdicts.specs.Operation.{verdicts_of};
ghost use Rattle.ropeclover.specs.Exports.{start_numbers, advance_numbers, ask_numbers, explain_numbers};
ghost use Rattle.long_jobs.specs.Operation.{binarize_of};
ghost use Rattle.copies.specs.Operation.{clean_of};
ghost use Rattle.abnf.specs.declared.Edition.TheVariants.{Rfc5234};
ghost use Rattle.abnf_jobs.specs.Operation.{read_of};
ghost use Rattle.bit_machine.specs.Operations.{start_bits_of, advance_bits_of, done_count_of};
ghost use Rattle.ropeclover.specs.Exports.{verdicts_numbers, show_numbers, binarize_numbers, clean_numbers};
ghost use Rattle.ropeclover.specs.Exports.{count_numbers, read_numbers};
ghost use Rattle.machine.specs.Answers.{started_of, advanced_of};
ghost use Rattle.forms.specs.Answers.{asked_of, explained_of};
ghost use Rattle.verdicts.specs.Answers.{verdicts_answer};
ghost use Rattle.copies.specs.Answers.{cleaned_of};
ghost use Rattle.abnf_jobs.specs.Answers.{text_read_of};
ghost use Rattle.bit_machine.specs.Answers.{counted_of};
ghost use Rattle.long_jobs.specs.Operation.{binarized_of};

use abnf_jobs::Counts;
use job::Refusal;
use machine::Ended;
use verdicts::Judged;

// The numbers of an answer, all of which are written: of a refusal its number and place, and zeros; else 0, 0 and the
// values. Those of start, binarize and clean have one value.
fn value_numbers(value: Result<usize, Refusal>) -> [u64; 3]
    ensures started { result ≡ start_numbers (started_of value) }
    ensures binarized { result ≡ binarize_numbers (binarized_of value) }
    ensures cleaned { result ≡ clean_numbers (cleaned_of value) }
{
    match value {
        Ok(value) => [0, 0, value as u64],
        Err(refusal) => [refusal.cause.number(), refusal.place as u64, 0],
    }
}

fn advanced_numbers(ended: Result<Ended, Refusal>) -> [u64; 5]
    ensures advanced { result ≡ advance_numbers (advanced_of ended) }
{
    match ended {
        Ok(ended) => [0, 0, u64::from(ended.finished), ended.steps, ended.meetings],
        Err(refusal) => [refusal.cause.number(), refusal.place as u64, 0, 0, 0],
    }
}

fn asked_numbers(accepted: Result<bool, Refusal>) -> [u64; 3]
    ensures asked { result ≡ ask_numbers (asked_of accepted) }
{
    match accepted {
        Ok(accepted) => [0, 0, u64::from(accepted)],
        Err(refusal) => [refusal.cause.number(), refusal.place as u64, 0],
    }
}

fn explained_numbers(records: Result<Option<usize>, Refusal>) -> [u64; 4]
    ensures explained { result ≡ explain_numbers (explained_of records) }
{
    match records {
        Ok(Some(records)) => [0, 0, 1, records as u64],
        Ok(None) => [0, 0, 0, 0],
        Err(refusal) => [refusal.cause.number(), refusal.place as u64, 0, 0],
    }
}

fn judged_numbers(judged: Result<Judged, Refusal>) -> [u64; 4]
    ensures judged { result ≡ verdicts_numbers (verdicts_answer judged) }
{
    match judged {
        Ok(judged) => [0, 0, u64::from(judged.empty), u64::from(judged.growing)],
        Err(refusal) => [refusal.cause.number(), refusal.place as u64, 0, 0],
    }
}

fn text_numbers(counts: Result<Counts, Refusal>) -> [u64; 4]
    ensures read { result ≡ read_numbers (text_read_of counts) }
{
    match counts {
        Ok(counts) => [0, 0, counts.records as u64, counts.characters as u64],
        Err(refusal) => [refusal.cause.number(), refusal.place as u64, 0, 0],
    }
}

fn counted_numbers(count: Result<u64, Refusal>) -> [u64; 3]
    ensures counted { result ≡ count_numbers (counted_of count) }
{
    match count {
        Ok(count) => [0, 0, count],
        Err(refusal) => [refusal.cause.number(), refusal.place as u64, 0],
    }
}

#[unsafe(no_mangle)]
pub extern "C" fn ropeclover_start(
    job: &[u8],
    table: &mut [u8],
    reasons: &mut [u32],
    answer: &mut [u64; 3],
)
    ensures answered { answer.new
        ≡ start_numbers (start_of job.now (lent_of table.old reasons.old)).answer }
    ensures left { lent_of table.new reasons.new
        ≡ (start_of job.now (lent_of table.old reasons.old)).lent }
{
    *answer = value_numbers(operations::start(job, table, reasons));
}

#[unsafe(no_mangle)]
pub extern "C" fn ropeclover_advance(
    job: &[u8],
    table: &mut [u8],
    reasons: &mut [u32],
    n: u64,
    answer: &mut [u64; 5],
)
    ensures answered { answer.new
        ≡ advance_numbers
        (advance_of job.now (lent_of table.old reasons.old) n).answer }
    ensures left { lent_of table.new reasons.new
        ≡ (advance_of job.now (lent_of table.old reasons.old) n).lent }
{
    *answer = advanced_numbers(operations::advance(job, table, reasons, n));
}

#[unsafe(no_mangle)]
pub extern "C" fn ropeclover_ask(job: &[u8], table: &[u8], form: &[u8], answer: &mut [u64; 3])
    ensures answered { answer.new
        ≡ ask_numbers (ask_of job.now table.now form.now) }
{
    *answer = asked_numbers(operations::ask(job, table, form));
}

#[unsafe(no_mangle)]
pub extern "C" fn ropeclover_explain(
    job: &[u8],
    table: &mut [u8],
    reasons: &mut [u32],
    form: &[u8],
    listing: &mut [u8],
    answer: &mut [u64; 4],
)
    ensures answered { answer.new
        ≡ explain_numbers (explain_of job.now (lent_of table.old reasons.old)
        form.now listing.old).answer }
    ensures left { lent_of table.new reasons.new
        ≡ (explain_of job.now (lent_of table.old reasons.old)
        form.now listing.old).lent }
    ensures listed { listing.new
        ≡ (explain_of job.now (lent_of table.old reasons.old)
        form.now listing.old).listing }
{
    *answer = explained_numbers(operations::explain(job, table, reasons, form, listing));
}

#[unsafe(no_mangle)]
pub extern "C" fn ropeclover_verdicts(
    job: &[u8],
    table: &mut [u8],
    codes: &mut [u8],
    answer: &mut [u64; 4],
)
    ensures answered { answer.new
        ≡ verdicts_numbers (verdicts_of job.now table.old codes.old).answer }
    ensures left { table.new
        ≡ (verdicts_of job.now table.old codes.old).table }
    ensures coded { codes.new
        ≡ (verdicts_of job.now table.old codes.old).codes }
{
    *answer = judged_numbers(operations::verdicts(job, table, codes));
}

// Where the part that showing returns stands in the job, and how long it is.
#[unsafe(no_mangle)]
pub extern "C" fn ropeclover_show(job: &[u8], answer: &mut [u64; 2])
    ensures answered { answer.new ≡ show_numbers (shown_part_lem job.now) }
{
    let (part, shown) = operations::shown(job);
    *answer = [part.offset as u64, shown.len() as u64];
}

#[unsafe(no_mangle)]
pub extern "C" fn ropeclover_binarize(source: &[u8], job: &mut [u8], answer: &mut [u64; 3])
    ensures answered { answer.new
        ≡ binarize_numbers (binarize_of source.now job.old).answer }
    ensures left { job.new ≡ (binarize_of source.now job.old).job }
{
    *answer = value_numbers(operations::binarize(source, job));
}

#[unsafe(no_mangle)]
pub extern "C" fn ropeclover_clean(job: &[u8], out: &mut [u8], answer: &mut [u64; 3])
    ensures answered { answer.new
        ≡ clean_numbers (clean_of job.now out.old).answer }
    ensures left { out.new ≡ (clean_of job.now out.old).out }
{
    *answer = value_numbers(operations::clean(job, out));
}

#[unsafe(no_mangle)]
pub extern "C" fn ropeclover_read_abnf(
    text: &[u8],
    map: &mut [u8],
    job: &mut [u8],
    answer: &mut [u64; 4],
)
    ensures answered { answer.new
        ≡ read_numbers (read_of Rfc5234 text.now map.old job.old).answer }
    ensures map { map.new
        ≡ (read_of Rfc5234 text.now map.old job.old).map }
    ensures job { job.new
        ≡ (read_of Rfc5234 text.now map.old job.old).job }
{
    *answer = text_numbers(operations::read_abnf(text, map, job));
}

#[unsafe(no_mangle)]
pub extern "C" fn ropeclover_start_bits(
    job: &[u8],
    bits: &mut [u8],
    reasons: &mut [u32],
    answer: &mut [u64; 3],
)
    ensures answered { answer.new
        ≡ start_numbers (start_bits_of job.now (lent_of bits.old reasons.old)).answer }
    ensures left { lent_of bits.new reasons.new
        ≡ (start_bits_of job.now (lent_of bits.old reasons.old)).lent }
{
    *answer = value_numbers(operations::start_bits(job, bits, reasons));
}

#[unsafe(no_mangle)]
pub extern "C" fn ropeclover_advance_bits(
    job: &[u8],
    bits: &mut [u8],
    reasons: &mut [u32],
    n: u64,
    answer: &mut [u64; 5],
)
    ensures answered { answer.new
        ≡ advance_numbers
        (advance_bits_of job.now (lent_of bits.old reasons.old) n).answer }
    ensures left { lent_of bits.new reasons.new
        ≡ (advance_bits_of job.now (lent_of bits.old reasons.old) n).lent }
{
    *answer = advanced_numbers(operations::advance_bits(job, bits, reasons, n));
}

#[unsafe(no_mangle)]
pub extern "C" fn ropeclover_ask_bits(job: &[u8], bits: &[u8], form: &[u8], answer: &mut [u64; 3])
    ensures answered { answer.new
        ≡ ask_numbers (ask_bits_of job.now bits.now form.now) }
{
    *answer = asked_numbers(operations::ask_bits(job, bits, form));
}

#[unsafe(no_mangle)]
pub extern "C" fn ropeclover_done_count(bits: &[u8], answer: &mut [u64; 3])
    ensures answered { answer.new ≡ count_numbers (done_count_of bits.now) }
{
    *answer = counted_numbers(operations::done_count(bits));
}
