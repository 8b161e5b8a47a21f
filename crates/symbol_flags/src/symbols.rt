// Which symbols are productive, which are useful and which lead to another, as sets. Rules are given by their sort
// keys. No table is lent: later operations use these functions too.
ghost use Rattle.std.specs.Prelude.{◌<◌, eqb};
ghost use Rattle.job.specs.Inside.Keys.{Keys, rules_of_keys};
ghost use Rattle.usefulness.specs.Usefulness.{productive, useful, leads, to_terminal};
ghost use Rattle.usefulness.specs.Inside.Flags.{Flags};

use crate::set::SymbolSet;
use crate::{passes, rules};
use usefulness::Direction;

// The symbols that derive a terminal string.
pub fn productive_symbols(keys: &[u32]) -> SymbolSet
    requires rules { Keys keys.now }
    ensures flags { Flags (productive (rules_of_keys keys.now)) result.word }
{
    passes::grow(SymbolSet::terminals(), keys, Direction::Up)
}

// The useful symbols, by the productive ones.
pub fn useful_symbols(keys: &[u32], start: u8, generating: SymbolSet) -> SymbolSet
    requires rules { Keys keys.now }
    requires start { start < 64 }
    requires productive { Flags (productive (rules_of_keys keys.now)) generating.word }
    ensures flags { Flags (useful (rules_of_keys keys.now) start) result.word }
{
    let kept = rules::keep_rules(keys, generating);
    let first = if generating.contains(start) {
        SymbolSet::single(start)
    } else {
        SymbolSet::empty()
    };
    passes::grow(first, kept.as_slice(), Direction::Down)
}

// The symbols that lead to a given one.
pub fn leading_symbols(keys: &[u32], symbol: u8) -> SymbolSet
    requires rules { Keys keys.now }
    requires symbol { symbol < 64 }
    ensures flags { Flags (leads (rules_of_keys keys.now) (λ X. eqb symbol X)) result.word }
{
    passes::grow(SymbolSet::single(symbol), keys, Direction::Back)
}

// The symbols that lead to a terminal.
pub fn terminal_leading_symbols(keys: &[u32]) -> SymbolSet
    requires rules { Keys keys.now }
    ensures flags { Flags (to_terminal (rules_of_keys keys.now)) result.word }
{
    passes::grow(SymbolSet::terminals(), keys, Direction::Back)
}
