// Reads a job from standard input and prints six lines: states, examined, joins, start, empty, growing; or the line
// 'refused N at P'.
#![tactic(auto)]

// One byte more than a job may have, so that longer input is refused as too long.
const INPUT_BYTES: usize = 16385;

// The most bytes that a report's output has.
const OUTPUT_BYTES: usize = 117;

// Prints the report on a job.
fn report(rt: &HostRuntime, job: &[u8]) {
    let mut table = [0u8; job::TABLE_BYTES];
    let mut reasons = [0u32; job::REASON_NUMBERS];
    let mut codes = [0u8; job::CODE_BYTES];
    let report = reporting::operation::report(job, &mut table, &mut reasons, &mut codes);
    let mut out = [0u8; OUTPUT_BYTES];
    let written = printing::operations::report_output(report, &mut out);
    console::write_output(rt, &out, written.bytes);
}

fn main(rt: HostRuntime) {
    if !console::has_no_words(&rt, b"usage: ropeclover-report < JOB; it takes no words\n") {
        return;
    }
    let mut buffer = [0u8; INPUT_BYTES];
    match console::read_input(&mut rt.stdin(), &mut buffer) {
        Ok(len) => report(&rt, console::part(&buffer, len)),
        Err(error) => console::tell_failure(&rt, "standard input", &error),
    }
}
