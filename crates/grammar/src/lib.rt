// The symbols of a grammar. The papers' definitions stand in specs/, the theorems about them in proofs/.
#![tactic(auto)]

ghost use Rattle.std.specs.Prelude.{◌≡◌, ltb};
ghost use Rattle.grammar.specs.Symbol.{class_of, is_terminal_lem};

pub mod theorems;

// What a byte stands for in a rule or a form.
#[derive(Clone, Copy)]
pub enum SymbolClass {
    Variable,
    Terminal,
    Neither,
}

// The class of a byte: variables are 0 to 31, terminals 32 to 63.
pub fn classify(symbol: u8) -> SymbolClass
    ensures class { result ≡ class_of symbol }
{
    match symbol {
        0..=31 => SymbolClass::Variable,
        32..=63 => SymbolClass::Terminal,
        _ => SymbolClass::Neither,
    }
}

// Whether a byte is a variable.
pub fn is_variable(symbol: u8) -> bool
    ensures variable { result ≡ ltb symbol 32 }
{
    matches!(classify(symbol), SymbolClass::Variable)
}

// Whether a byte is a terminal.
pub fn is_terminal(symbol: u8) -> bool
    ensures terminal { result ≡ is_terminal_lem symbol }
{
    matches!(classify(symbol), SymbolClass::Terminal)
}

// Whether a byte is a symbol: a variable or a terminal.
pub fn is_symbol(symbol: u8) -> bool
    ensures symbol { result ≡ ltb symbol 64 }
{
    !matches!(classify(symbol), SymbolClass::Neither)
}
