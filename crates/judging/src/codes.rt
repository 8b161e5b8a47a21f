// The code of each symbol.
ghost use Rattle.std.specs.Prelude.{◌≡◌, Bool, cond, ℕ, ◌<◌, ◌≤◌, length};
ghost use Rattle.job.specs.Written.{written};
ghost use Rattle.job.specs.Inside.Keys.{Keys, rules_of_keys};
ghost use Rattle.usefulness.specs.Inside.Flags.{Flags};
ghost use Rattle.verdicts.specs.Verdicts.{is_named_lem};
ghost use Rattle.judging.specs.Codes.{code_byte};

use symbol_flags::set::SymbolSet;

// What the verdicts say of a symbol.
#[derive(Clone, Copy, PartialEq, Eq)]
pub enum SymbolCode {
    NotNamed = 0,
    Useful = 1,
    NotProductive = 2,
    NotUseful = 3,
}

// The byte of a code, as the call writes it.
impl From<SymbolCode> for u8 {
    fn from(code: SymbolCode) -> u8
        ensures { result ≡ code_byte code }
    {
        code as u8
    }
}

// The symbols that a rule names, and the start symbol.
pub fn named_symbols(keys: &[u32], start: u8) -> SymbolSet
    requires rules { Keys keys.now }
    requires start { start < 64 }
    ensures flags { Flags (is_named_lem (rules_of_keys keys.now) start) result.word }
{
    let mut named = SymbolSet::single(start);
    for key in keys {
        let rule = records::rules::unpack(*key);
        named = named.with(rule.head).with_body(rule);
    }
    named
}

// The code of a symbol by the sets that it is in.
fn code_of(named: bool, productive: bool, useful: bool) -> SymbolCode
    ensures code { code_byte result ≡ cond named (cond productive (cond useful 1 3) 2) 0 }
{
    if !named {
        SymbolCode::NotNamed
    } else if !productive {
        SymbolCode::NotProductive
    } else if !useful {
        SymbolCode::NotUseful
    } else {
        SymbolCode::Useful
    }
}

// Writes the codes of the 64 symbols.
pub fn write_codes(named: SymbolSet, productive: SymbolSet, useful: SymbolSet, codes: &mut [u8])
    requires long { 64 ≤ length codes.old }
    ensures codes { (n p u : ℕ → Bool) → Flags n named.word → Flags p productive.word →
        Flags u useful.word →
        codes.new ≡ written (λ X. cond (n X) (cond (p X) (cond (u X) 1 3) 2) 0) 0 64 codes.old }
{
    for x in 0..64 {
        let code = code_of(
            named.contains(x),
            productive.contains(x),
            useful.contains(x),
        );
        codes[usize::from(x)] = u8::from(code);
    }
}
