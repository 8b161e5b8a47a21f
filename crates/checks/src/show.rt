// Showing the refused record.
ghost use Rattle.std.specs.Prelude.{◌≡◌, ◌<◌, ◌≤◌};
ghost use Rattle.job.specs.Records.{refused};
ghost use Rattle.job.specs.Show.{part_of_lem, shown_part_lem, shown_of};

use crate::call;
use job::{Level, Part};

// The part of a job that the number and the place of a refusal name: the record that is refused by 3 to 7, else the
// empty part.
// Kept (1): what may not change: it promises the empty part for numbers that are no cause, too.
#[tactic(auto, unfolding(job::specs::Show::part_of_lem))]
pub fn part_of(number: usize, place: usize) -> Part
    requires within { 3 ≤ number → number ≤ 7 → place < 4096 }
    ensures part { result ≡ part_of_lem (refused number place) }
{
    match number {
        3..=7 => Part {
            offset: 4 * place,
            length: 4,
        },
        _ => Part {
            offset: 0,
            length: 0,
        },
    }
}

// The part of the record that the job is refused for by 3 to 7, else the empty part.
pub fn shown_part(job: &[u8]) -> Part
    ensures part { result ≡ shown_part_lem job.now }
{
    let (number, place) = job::numbers_of(call::job_check(job, Level::Full, false).err());
    part_of(number, place)
}

// That part and its bytes, by one check.
pub fn shown(job: &[u8]) -> (Part, &[u8])
    ensures part { result.0 ≡ shown_part_lem job.now }
    ensures bytes { result.1.now ≡ shown_of job.now }
{
    let part = shown_part(job);
    let from = part.offset;
    let end = from + part.length;
    (part, &job[from..end])
}

// Its bytes alone.
pub fn show_refused(job: &[u8]) -> &[u8]
    ensures shown { result.now ≡ shown_of job.now }
{
    shown(job).1
}
