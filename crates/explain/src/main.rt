// Reads a job from standard input and the symbols of a form, as decimal words, from the command line; without a word the
// form is the start symbol, and one empty word is the empty form. Prints whether the form is accepted, the number of
// records, and a line for each: the transition and why it is there; or the line 'refused N at P'.
#![tactic(auto)]

ghost use Rattle.std.specs.Prelude.{◌≡◌, ◌≤◌, length, IfSome};
ghost use Rattle.forms.specs.Answers.{explained_of};

use job::Refusal;
use std::env::Env;

// One byte more than a job may have, so that longer input is refused as too long.
const INPUT_BYTES: usize = 16385;

// Room for a record of every transition.
const LISTING_BYTES: usize = 524288;

// The most words that are read: more symbols than a form may have, so that a longer one is refused as too long.
const MOST_WORDS: usize = 4096;

// The most bytes that the output of an explanation has.
const OUTPUT_BYTES: usize = 2424874;

// The symbol that a word spells, if it is a number from 0 to 255.
fn symbol_of(word: &[u8]) -> Option<u8> {
    if word.is_empty() {
        return None;
    }
    let mut n: u8 = 0;
    for digit in word {
        if !digit.is_ascii_digit() {
            return None;
        }
        n = n.checked_mul(10)?.checked_add(*digit - b'0')?;
    }
    Some(n)
}

// Word i of the command line as a symbol; a word of more than 16 bytes is none.
fn word_at(rt: &impl Env, i: usize) -> Option<u8> {
    let mut word = [0u8; 16];
    let n = rt.arg(i, &mut word).unwrap_or(0);
    symbol_of(console::part(&word, n))
}

// Fills the form with the words of the command line, unless one is no symbol.
fn read_form(rt: &impl Env, form: &mut [u8], count: usize) -> Option<()>
    requires within { count ≤ length form.old }
{
    for i in 0..count {
        form[i] = word_at(rt, i + 1)?;
    }
    Some(())
}

// What an explanation answers, as it is printed: a refusal's number and place, whether the form is accepted, and the
// number of records.
fn explained_numbers(explained: Result<Option<usize>, Refusal>) -> (usize, usize, bool, usize)
    ensures numbers { record { number = result.0; place = result.1; accepted = result.2; records = result.3 }
        ≡ explained_of explained }
{
    let (number, place) = job::numbers_of(explained.err());
    let records = explained.unwrap_or(None);
    (number, place, records.is_some(), records.unwrap_or(0))
}

// Prints the explanation of a form, by way of a buffer for the output.
fn print_explanation(rt: &HostRuntime, job: &[u8], form: &[u8], out: &mut [u8]) {
    let mut table = [0u8; job::TABLE_BYTES];
    let mut reasons = [0u32; job::REASON_NUMBERS];
    let mut listing = [0u8; LISTING_BYTES];
    let explained = explaining::explain(job, &mut table, &mut reasons, form, &mut listing);
    let (number, place, accepted, records) = explained_numbers(explained);
    let written = printing::operations::explain_output(
        number, place, accepted, records, &listing, out,
    );
    console::write_output(rt, out, written.bytes);
}

// Prints the explanation of a form.
fn explain(rt: &HostRuntime, job: &[u8], form: &[u8]) {
    let mut out = [0u8; OUTPUT_BYTES];
    print_explanation(rt, job, form, &mut out);
}

// How many symbols the words of the command line spell, which are put into the form: none for one empty word; unless one
// of them is no symbol.
fn read_words(rt: &impl Env, form: &mut [u8], count: usize) -> Option<usize>
    requires within { count ≤ length form.old }
{
    if count == 1 {
        let mut word = [0u8; 16];
        if rt.arg(1, &mut word).unwrap_or(0) == 0 {
            return Some(0);
        }
    }
    read_form(rt, form, count)?;
    Some(count)
}

// Reads the job, and explains the form, or the start symbol where no words are given.
fn explain_input(rt: &HostRuntime, form: &[u8], symbols: usize, words: usize) {
    let mut buffer = [0u8; INPUT_BYTES];
    match console::read_input(&mut rt.stdin(), &mut buffer) {
        Ok(len) => explain_job(rt, console::part(&buffer, len), form, symbols, words),
        Err(error) => console::tell_failure(rt, "standard input", &error),
    }
}

// Explains the form, or the start symbol of the job where no words are given.
fn explain_job(rt: &HostRuntime, job: &[u8], form: &[u8], symbols: usize, words: usize) {
    if words == 0 {
        let start = [lookup::facts::field_of(job, b'S')];
        explain(rt, job, &start);
        return;
    }
    explain(rt, job, console::part(form, symbols));
}

// How many words the command line has, unless it has more than are read.
fn word_count(rt: &impl Env) -> Option<usize>
    ensures within { IfSome result (λ n. n ≤ 4096) }
{
    for i in 0..MOST_WORDS + 1 {
        if !console::has_word(rt, i + 1) {
            return Some(i);
        }
    }
    None
}

fn main(rt: HostRuntime) {
    let mut form = [0u8; MOST_WORDS];
    if !console::has_word(&rt, 0) {
        return;
    }
    let Some(count) = word_count(&rt) else {
        console::tell(
            &rt,
            b"ropeclover-explain: too many symbols; a form has at most 64\n",
        );
        return;
    };
    let Some(symbols) = read_words(&rt, &mut form, count) else {
        console::tell(
            &rt,
            b"usage: ropeclover-explain [SYMBOL ..] < JOB\neach SYMBOL is a number from 0 to 63; without one the start symbol is explained, and '' is the empty form\n",
        );
        return;
    };
    explain_input(&rt, &form, symbols, count);
}
