// The rules that stay, under new numbers. Rules are given by their sort keys.
ghost use Rattle.std.specs.Prelude.{◌≡◌, map};
ghost use Rattle.job.specs.Inside.Keys.{Keys, rule_from, RuleFits};
ghost use Rattle.copies.specs.Inside.Parts.{renumbered_record, renumbered_key};

use job::{Body, JobRecord, RuleFields, SYMBOLS};
use records::keys::RuleKeys;

// The record of a rule under new numbers.
fn renumber(rule: RuleFields, numbers: &[u8; SYMBOLS]) -> JobRecord
    requires rule { RuleFits rule }
    ensures record { result ≡ renumbered_record numbers.now (rule_from rule) }
{
    let (kind, second, third) = match rule.body {
        Body::Empty => (b'E', 0, 0),
        Body::Unit(x) => (b'U', numbers[usize::from(x)], 0),
        Body::Pair(x, y) => (b'P', numbers[usize::from(x)], numbers[usize::from(y)]),
    };
    JobRecord {
        kind,
        first: numbers[usize::from(rule.head)],
        second,
        third,
    }
}

// The sort keys of rules under new numbers.
pub fn renumber_keys(kept: &[u32], numbers: &[u8; SYMBOLS]) -> RuleKeys
    requires rules { Keys kept.now }
    ensures keys { result ≡ map (renumbered_key numbers.now) kept.now }
{
    let mut renumbered = RuleKeys::new();
    for key in kept {
        let record = renumber(records::rules::unpack(*key), numbers);
        renumbered.push(records::rules::sort_key(record));
    }
    renumbered
}
