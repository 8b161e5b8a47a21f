// The rules whose symbols are all in a set, by their sort keys.
ghost use Rattle.std.specs.Prelude.{◌≡◌, Bool, [], ◌∷◌, ◌++◌, List, ℕ, ◌<◌, ◌≤◌, length, take};
ghost use Rattle.job.specs.Inside.Keys.{Keys, rules_of_keys};
ghost use Rattle.usefulness.specs.Sets.{within};
ghost use Rattle.usefulness.specs.Inside.Flags.{Flags};

use crate::set::SymbolSet;
use records::keys::RuleKeys;

// The keys of those rules whose symbols are all in a set, in their order.
pub fn keep_rules(keys: &[u32], set: SymbolSet) -> RuleKeys
    requires rules { Keys keys.now }
    ensures rules { (s : ℕ → Bool) → Flags s set.word →
        rules_of_keys result ≡ within s (rules_of_keys keys.now) }
    ensures kept { Keys result }
{
    let mut kept = RuleKeys::new();
    for key in keys {
        if set.has_rule(records::rules::unpack(*key)) {
            kept.push(*key);
        }
    }
    kept
}
