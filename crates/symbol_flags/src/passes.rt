// The growth of a set of symbols by rules, in the direction asked for: passes over the rules until one adds nothing.
// The rules are given by their sort keys.
ghost use Rattle.std.specs.Prelude.{◌≡◌, Bool, ◌||◌, [], ◌∷◌, ℕ};
ghost use Rattle.job.specs.Inside.Keys.{Keys, rules_of_keys, rule_from, RuleFits};
ghost use Rattle.usefulness.specs.Sets.{stands_in, ready, added, round, grown};
ghost use Rattle.usefulness.specs.Inside.Flags.{Flags, flagged};
ghost use Rattle.usefulness.specs.Inside.Passes.{in_place};

use crate::set::SymbolSet;
use job::RuleFields;
use usefulness::Direction;

// Whether a rule adds to the set.
// Kept (7): what may not change: `ready`, `added`, `round` and `grown` of usefulness/specs take the direction as a value,
// so that a closure for each step would need a law that names its direction all the same.
fn is_ready(set: SymbolSet, rule: RuleFields, direction: Direction) -> bool
    requires rule { RuleFits rule }
    ensures says { result ≡ ready direction (flagged set.word) (rule_from rule) }
{
    match direction {
        Direction::Up => set.has_body(rule),
        Direction::Down => set.contains(rule.head),
        Direction::Back => set.meets_body(rule),
    }
}

// The set with what a rule adds.
fn with_added(set: SymbolSet, rule: RuleFields, direction: Direction) -> SymbolSet
    requires rule { RuleFits rule }
    ensures flags { (s : ℕ → Bool) → Flags s set.word →
        Flags (λ X. s X || stands_in X (added direction (rule_from rule))) result.word }
{
    match direction {
        Direction::Up | Direction::Back => set.with(rule.head),
        Direction::Down => set.with_body(rule),
    }
}

// One rule.
fn add(set: SymbolSet, rule: RuleFields, direction: Direction) -> SymbolSet
    requires rule { RuleFits rule }
    ensures flags { (s : ℕ → Bool) → Flags s set.word →
        Flags (round direction (rule_from rule ∷ []) s) result.word }
{
    if is_ready(set, rule, direction) {
        with_added(set, rule, direction)
    } else {
        set
    }
}

// One pass over the rules.
fn pass(mut set: SymbolSet, keys: &[u32], direction: Direction) -> SymbolSet
    requires rules { Keys keys.now }
    ensures flags { (s : ℕ → Bool) → Flags s set.word →
        Flags (in_place direction (rules_of_keys keys.now) s) result.word }
{
    for key in keys {
        set = add(set, records::rules::unpack(*key), direction);
    }
    set
}

// The set with what the rules add, until nothing is new.
pub fn grow(mut set: SymbolSet, keys: &[u32], direction: Direction) -> SymbolSet
    requires rules { Keys keys.now }
    ensures grown { (s : ℕ → Bool) → Flags s set.word →
        Flags (grown direction (rules_of_keys keys.now) s) result.word }
{
    loop {
        let next = pass(set, keys, direction);
        if next == set {
            return set;
        }
        set = next;
    }
}
