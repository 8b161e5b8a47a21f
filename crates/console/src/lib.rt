// What the programs share: their words, reading a job from standard input, and writing to standard output.
#![tactic(auto)]

ghost use Rattle.std.specs.Prelude.{◌≡◌, ◌<◌, ◌≤◌, length, take, IfOk, OnErr};
ghost use Rattle.std.specs.Io.KnownBytes.{Consumes, IsAtEnd};
ghost use Rattle.console.specs.Part.{first_bytes};

use std::env::{Env, FillError};
use std::io;
use std::io::Read;

// Whether the command line has a word i; word 0 is the name of the program.
pub fn has_word(rt: &impl Env, i: usize) -> bool {
    let mut word = [0u8; 1];
    match rt.arg(i, &mut word) {
        Ok(_) => true,
        Err(FillError::TooLong) => true,
        Err(FillError::NotPresent) => false,
    }
}

// Writes a text to standard error, as far as that takes it.
pub fn tell(rt: &HostRuntime, text: &[u8]) {
    let _ = io::Write::write_all(&mut rt.stderr(), text);
}

// Names on standard error what failed, and why.
pub fn tell_failure(rt: &impl Eprint, what: &str, error: &io::Error) {
    let _ = eprintln!(rt; "{what}: {error}");
}

// Whether the command line has no words; where it has some, the usage goes to standard error.
pub fn has_no_words(rt: &HostRuntime, usage: &[u8]) -> bool {
    if !has_word(rt, 1) {
        return true;
    }
    tell(rt, usage);
    false
}

// Reads the input until the buffer is full or the input ends, and returns how many bytes it put at the start of the
// buffer: those that the input had, one after the other. The only error is that of a read that fails; it leaves the
// buffer as long as it was.
pub fn read_input<R: Read>(input: &mut R, buf: &mut [u8]) -> io::Result<usize>
    ensures within { IfOk result (λ n. n ≤ length buf.new) }
    ensures consumed { IfOk result (λ n. Consumes (R.remaining input.old) (R.remaining input.new) (take n buf.new)) }
    ensures ended { IfOk result (λ n. n < length buf.new → IsAtEnd (R.remaining input.new)) }
    ensures failed { OnErr result (length buf.new ≡ length buf.old) }
{
    let mut len = 0;
    // Kept (3): a read gives as many bytes as it likes, so no range has the places.
    while len < buf.len() {
        let n = input.read(&mut buf[len..])?;
        if n == 0 {
            return Ok(len);
        }
        len += n;
    }
    Ok(len)
}

// The first n bytes of a buffer, none where it has fewer.
pub fn part(buf: &[u8], n: usize) -> &[u8]
    ensures first { result.now ≡ first_bytes n buf.now }
{
    if n <= buf.len() {
        return &buf[0..n];
    }
    &buf[0..0]
}

// Writes the first n bytes of an output to standard output, by one write where all are taken; a failure is named on
// standard error.
pub fn write_output(rt: &(impl Print + Eprint), output: &[u8], n: usize) {
    if let Err(error) = rt.write_all(part(output, n)) {
        tell_failure(rt, "standard output", &error);
    }
}
