// Whether rules have a cycle that grows: a pair rule with one symbol that leads back to its head, and with another
// beside it that leads to a terminal. Rules are given by their sort keys.
ghost use Rattle.std.specs.Prelude.{◌≡◌, ◌<◌};
ghost use Rattle.job.specs.Inside.Keys.{Keys, rules_of_keys, rule_from, RuleFits};
ghost use Rattle.usefulness.specs.Usefulness.{to_terminal};
ghost use Rattle.usefulness.specs.Inside.Flags.{Flags, flagged};
ghost use Rattle.verdicts.specs.Verdicts.{one_each_lem, cyclic};
ghost use Rattle.verdicts.specs.Inside.Cycles.{pair_to_lem, cycle_at_lem};

use job::{Body, RuleFields};
use symbol_flags::set::SymbolSet;

// Whether one symbol of a pair leads back, while the other leads to a terminal.
fn one_each(x: u8, y: u8, back: SymbolSet, terminal: SymbolSet) -> bool
    requires pair { (x < 64) × (y < 64) }
    ensures says { result ≡ one_each_lem (flagged back.word) (flagged terminal.word) x y }
{
    (back.contains(x) && terminal.contains(y)) || (back.contains(y) && terminal.contains(x))
}

// Whether a rule is such a pair rule of a head.
fn pair_to(rule: RuleFields, symbol: u8, back: SymbolSet, terminal: SymbolSet) -> bool
    requires rule { RuleFits rule }
    ensures says { result ≡ pair_to_lem symbol (flagged back.word) (flagged terminal.word)
        (rule_from rule) }
{
    match rule.body {
        Body::Pair(x, y) => rule.head == symbol && one_each(x, y, back, terminal),
        Body::Empty | Body::Unit(_) => false,
    }
}

// Whether such a rule of the given head stands on a cycle. The symbols that lead to a terminal are given.
fn cycle_at(keys: &[u32], terminal: SymbolSet, symbol: u8) -> bool
    requires rules { Keys keys.now }
    requires terminal { Flags (to_terminal (rules_of_keys keys.now)) terminal.word }
    requires symbol { symbol < 64 }
    ensures says { result ≡ cycle_at_lem symbol (rules_of_keys keys.now) }
{
    let back = symbol_flags::symbols::leading_symbols(keys, symbol);
    keys.iter().any(|key| pair_to(records::rules::unpack(*key), symbol, back, terminal))
}

// Whether the rules have a cycle that grows. A head is a variable.
pub fn any_cycle(keys: &[u32]) -> bool
    requires rules { Keys keys.now }
    ensures says { result ≡ cyclic (rules_of_keys keys.now) }
{
    let terminal = symbol_flags::symbols::terminal_leading_symbols(keys);
    (0..32).any(|head| cycle_at(keys, terminal, head))
}
