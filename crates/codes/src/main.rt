// Reads a job from standard input and prints a line 'SYMBOL CODE' for each symbol 0 to 63, or the line
// 'refused N at P'.
#![tactic(auto)]

// One byte more than a job may have, so that longer input is refused as too long.
const INPUT_BYTES: usize = 16385;

// The most bytes that the output of the codes has.
const OUTPUT_BYTES: usize = 448;

// Prints the codes of a job.
fn codes(rt: &HostRuntime, job: &[u8]) {
    let mut table = [0u8; job::TABLE_BYTES];
    let mut codes = [0u8; job::CODE_BYTES];
    let judged = judging::operation::verdicts(job, &mut table, &mut codes);
    let (number, place) = job::numbers_of(judged.err());
    let mut out = [0u8; OUTPUT_BYTES];
    let written = printing::operations::codes_output(number, place, &codes, &mut out);
    console::write_output(rt, &out, written.bytes);
}

fn main(rt: HostRuntime) {
    if !console::has_no_words(&rt, b"usage: ropeclover-codes < JOB; it takes no words\n") {
        return;
    }
    let mut buffer = [0u8; INPUT_BYTES];
    match console::read_input(&mut rt.stdin(), &mut buffer) {
        Ok(len) => codes(&rt, console::part(&buffer, len)),
        Err(error) => console::tell_failure(&rt, "standard input", &error),
    }
}
