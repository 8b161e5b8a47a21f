// The new numbers of the symbols.
ghost use Rattle.std.specs.Prelude.{◌≡◌, cond, ltb};
ghost use Rattle.usefulness.specs.Inside.Flags.{flagged};
ghost use Rattle.copies.specs.Inside.Parts.{Numbers};

use job::SYMBOLS;
use symbol_flags::set::SymbolSet;

// The new number of a symbol with so many useful variables below it.
fn number_of(symbol: u8, below: u8) -> u8
    ensures number { result ≡ cond (ltb symbol 32) below symbol }
{
    if grammar::is_variable(symbol) {
        below
    } else {
        symbol
    }
}

// The new number of each symbol, by the useful ones.
pub fn number_symbols(useful: SymbolSet) -> [u8; SYMBOLS]
    ensures numbers { Numbers (flagged useful.word) result }
{
    let mut numbers = [0; SYMBOLS];
    let mut below = 0;
    for x in 0..64 {
        numbers[usize::from(x)] = number_of(x, below);
        below += u8::from(useful.contains(x));
    }
    numbers
}
