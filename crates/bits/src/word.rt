// A word of 32 bits: one of its bits, and its ones, lowest first.
ghost use Rattle.std.specs.Prelude.{◌≡◌, ℕ, ◌<◌, ◌≤◌, cond, eqb};
ghost use Rattle.std.specs.Iterator.{at_most};
ghost use Rattle.bit_machine.specs.BitTable.{bit_of};
ghost use Rattle.bit_machine.specs.Inside.Word.{First, WithoutFirst};
ghost use Rattle.bits.specs.Ones.{OneGiven};

// Whether bit j of a word is set.
pub fn has_bit(word: u32, j: usize) -> bool
    requires within { j < 32 }
    ensures bit { result ≡ bit_of word j }
{
    (word >> j) & 1 == 1
}

// A word with bit j set, or cleared.
pub fn with_bit(word: u32, j: usize, value: bool) -> u32
    requires within { j < 32 }
    ensures bits { (b : ℕ) → b < 32 → bit_of result b ≡ cond (eqb b j) value (bit_of word b) }
{
    if value {
        word | (1 << j)
    } else {
        word & !(1 << j)
    }
}

// Which bit of a word is its first one, 32 where it has none.
pub fn first_one(word: u32) -> usize
    ensures first { First word result }
{
    word.trailing_zeros() as usize
}

// A word without its first one.
pub fn without_first(word: u32) -> u32
    requires some { 1 ≤ word }
    ensures rest { WithoutFirst word result }
{
    word & (word - 1)
}

// The ones of a word, or those that are left of them, to be walked over.
#[derive(Drop)]
pub struct Ones(pub u32);

impl Iterator for Ones {
    type Item = usize;

    ghost next_gives = { OneGiven };

    ghost remaining = { λ s. at_most s.0 };

    fn next(&mut self) -> Option<usize> {
        let word = self.0;
        if word == 0 {
            return None;
        }
        self.0 = without_first(word);
        Some(first_one(word))
    }
}
