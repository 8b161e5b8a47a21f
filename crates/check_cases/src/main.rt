// Runs the checks of a job on cases that need no more than them, and writes a line for each: number and place of the
// answer, then the bytes of the record that showing gives back, if any.
#![tactic(auto)]

ghost use Rattle.std.specs.Prelude.{◌+◌, ◌*◌, ◌≤◌, length};

use job::{JobRecord, Level};
use std::io;

// Writes a byte as a number, after a blank.
fn write_byte(rt: &impl Print, x: u8) -> io::Result<()> {
    print!(rt; " {x}")
}

// Writes the bytes of a record, or of none.
fn write_bytes(rt: &impl Print, part: &[u8]) -> io::Result<()> {
    for x in part {
        write_byte(rt, *x)?;
    }
    Ok(())
}

// Writes the answer on a job. `needed`: whether an I record is needed; showing never needs one.
fn report(rt: &impl Print, job: &[u8], needed: bool) -> io::Result<()> {
    let checked = checks::call::job_check(job, Level::Full, needed);
    let (number, place) = job::numbers_of(checked.err());
    print!(rt; "{number} {place}")?;
    write_bytes(rt, checks::show::show_refused(job))?;
    println!(rt)
}

// Writes the answer on the first n bytes of a buffer.
fn report_first(rt: &impl Print, buffer: &[u8], n: usize, needed: bool) -> io::Result<()>
    requires within { n ≤ length buffer.now }
{
    report(rt, &buffer[..n], needed)
}

// Makes r record i of a job.
fn put(job: &mut [u8], i: usize, r: JobRecord)
    requires room { 4 * i + 4 ≤ length job.old }
{
    let at = 4 * i;
    job[at] = r.kind;
    job[at + 1] = r.first;
    job[at + 2] = r.second;
    job[at + 3] = r.third;
}

// One of 32,768 different records of a kind. Its fields are below 32, so they fit a P and a T.
fn numbered(kind: u8, i: usize) -> JobRecord {
    JobRecord {
        kind,
        first: (i % 32) as u8,
        second: (i / 32 % 32) as u8,
        third: (i / 1024 % 32) as u8,
    }
}

// Makes the first n records of a job different ones of a kind.
fn fill(job: &mut [u8], n: usize, kind: u8)
    requires room { 4 * n ≤ length job.old }
{
    for i in 0..n {
        put(job, i, numbered(kind, i));
    }
}

// The start symbol 0.
fn start() -> JobRecord {
    JobRecord {
        kind: b'S',
        first: 0,
        second: 0,
        third: 0,
    }
}

fn small_jobs(rt: &impl Print) -> io::Result<()> {
    // no S
    report(rt, b"", true)?;
    report(rt, b"", false)?;
    // no I, where one is needed and where none is
    report(rt, b"S\x00\x00\x00", true)?;
    report(rt, b"S\x00\x00\x00", false)?;
    report(rt, b"S\x00\x00\x00I\x00\x00\x00", true)?;
    // an unknown kind
    report(rt, b"S\x00\x00\x00X\x00\x00\x00", false)?;
    // symbols 63 and 64, states 31 and 32
    report(rt, b"S\x00\x00\x00U\x00\x3f\x00", false)?;
    report(rt, b"S\x00\x00\x00U\x00\x40\x00", false)?;
    report(rt, b"S\x00\x00\x00T\x1f\x3f\x1f", false)?;
    report(rt, b"S\x00\x00\x00T\x20\x3f\x1f", false)?;
    // symbols 63 and 64 in either place of a pair
    report(rt, b"S\x00\x00\x00P\x00\x3f\x3f", false)?;
    report(rt, b"S\x00\x00\x00P\x00\x40\x3f", false)?;
    report(rt, b"S\x00\x00\x00P\x00\x3f\x40", false)
}

fn repeats(rt: &impl Print) -> io::Result<()> {
    // the same S, another S, another I
    report(rt, b"S\x00\x00\x00S\x00\x00\x00", false)?;
    report(rt, b"S\x00\x00\x00S\x01\x00\x00", false)?;
    report(rt, b"S\x00\x00\x00I\x00\x00\x00I\x01\x00\x00", false)?;
    // a record is checked for all before the next
    report(rt, b"S\x00\x00\x00S\x00\x00\x00X\x00\x00\x00", false)
}

// 39 bytes; 4,096 records, which are 16,384 bytes; more bytes than that, also where they are no whole records.
fn lengths(rt: &impl Print) -> io::Result<()> {
    let mut job = [0u8; 65536];
    fill(&mut job, 4097, b'T');
    put(&mut job, 0, start());
    report_first(rt, &job, 39, true)?;
    report_first(rt, &job, job::JOB_BYTES, true)?;
    report_first(rt, &job, job::JOB_BYTES, false)?;
    report_first(rt, &job, 16387, false)?;
    report_first(rt, &job, 16388, false)
}

// 256 rules and an S, then 257.
fn rules(rt: &impl Print) -> io::Result<()> {
    let mut job = [0u8; 65536];
    fill(&mut job, job::RULES, b'P');
    put(&mut job, 256, start());
    report_first(rt, &job, 1028, false)?;
    fill(&mut job, 257, b'P');
    put(&mut job, 257, start());
    report_first(rt, &job, 1032, false)
}

fn main(rt: HostRuntime) -> io::Result<()> {
    small_jobs(&rt)?;
    repeats(&rt)?;
    lengths(&rt)?;
    rules(&rt)
}
