// A set of symbols, and what of a rule is in it.
ghost use Rattle.std.specs.Prelude.{◌≡◌, false, Bool, ◌||◌, ℕ, ◌^◌, ◌<◌, eqb};
ghost use Rattle.grammar.specs.Symbol.{is_terminal_lem};
ghost use Rattle.grammar.specs.Rule.{body};
ghost use Rattle.job.specs.Inside.Keys.{rule_from, RuleFits};
ghost use Rattle.usefulness.specs.Sets.{all_in_lem, any_in, stands_in, rule_in};
ghost use Rattle.usefulness.specs.Inside.Flags.{Flags, flagged};

use job::{Body, RuleFields};

// The bits of the terminals, 32 to 63.
const TERMINALS: u64 = 0xffff_ffff_0000_0000;

// A set of the 64 symbols: in its word the bit of each that it has is 1. The word has no other bits, so that sets of
// the same symbols are equal.
#[derive(Clone, Copy, PartialEq, Eq)]
pub struct SymbolSet {
    word: u64,
    ghost within: { word < 2 ^ 64 },
}

impl SymbolSet {
    // No symbol.
    pub fn empty() -> Self
        ensures flags { Flags (λ _. false) result.word }
    {
        SymbolSet { word: 0 }
    }

    // One symbol.
    pub fn single(symbol: u8) -> Self
        requires symbol { symbol < 64 }
        ensures flags { Flags (λ X. eqb symbol X) result.word }
    {
        SymbolSet::empty().with(symbol)
    }

    // The terminals.
    pub fn terminals() -> Self
        ensures flags { Flags is_terminal_lem result.word }
    {
        SymbolSet { word: TERMINALS }
    }

    // Whether it has a symbol.
    pub fn contains(self, symbol: u8) -> bool
        requires symbol { symbol < 64 }
        ensures says { result ≡ flagged self.word symbol }
    {
        (self.word >> symbol) & 1 == 1
    }

    // The set with a symbol.
    pub fn with(self, symbol: u8) -> Self
        requires symbol { symbol < 64 }
        ensures flags { (set : ℕ → Bool) → Flags set self.word →
            Flags (λ X. set X || eqb symbol X) result.word }
    {
        SymbolSet {
            word: self.word | 1 << symbol,
        }
    }

    // The set with the symbols of a rule's body.
    pub fn with_body(self, rule: RuleFields) -> Self
        requires rule { RuleFits rule }
        ensures flags { (set : ℕ → Bool) → Flags set self.word →
            Flags (λ X. set X || stands_in X (body (rule_from rule))) result.word }
    {
        match rule.body {
            Body::Empty => self,
            Body::Unit(x) => self.with(x),
            Body::Pair(x, y) => self.with(x).with(y),
        }
    }

    // Whether it has each symbol of a rule's body.
    pub fn has_body(self, rule: RuleFields) -> bool
        requires rule { RuleFits rule }
        ensures says { result ≡ all_in_lem (flagged self.word) (body (rule_from rule)) }
    {
        match rule.body {
            Body::Empty => true,
            Body::Unit(x) => self.contains(x),
            Body::Pair(x, y) => self.contains(x) && self.contains(y),
        }
    }

    // Whether it has some symbol of a rule's body.
    pub fn meets_body(self, rule: RuleFields) -> bool
        requires rule { RuleFits rule }
        ensures says { result ≡ any_in (flagged self.word) (body (rule_from rule)) }
    {
        match rule.body {
            Body::Empty => false,
            Body::Unit(x) => self.contains(x),
            Body::Pair(x, y) => self.contains(x) || self.contains(y),
        }
    }

    // Whether it has all symbols of a rule.
    pub fn has_rule(self, rule: RuleFields) -> bool
        requires rule { RuleFits rule }
        ensures says { result ≡ rule_in (flagged self.word) (rule_from rule) }
    {
        self.contains(rule.head) && self.has_body(rule)
    }
}
