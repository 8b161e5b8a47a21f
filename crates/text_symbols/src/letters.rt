// The variables that letters and tails take.
ghost use Rattle.std.specs.Prelude.{◌≡◌, [], ◌∷◌, ◌+◌, ◌-◌, ◌≤◌, None, length, replicate};
ghost use Rattle.text_symbols.specs.Letters.{LetterFits, LettersFit, LettersTaken};

use crate::LETTERS;
use crate::items::Item;

// The variable of each letter that is met, by letter, and how many variables are taken in all.
#[derive(Drop)]
pub struct Variables {
    pub letters: [Option<u8>; LETTERS],
    pub taken: usize,
}

impl Variables {
    // Those of names alone: no letter is met.
    pub fn of_names(taken: usize) -> Self
        ensures variables { result ≡ record { letters = replicate 26 None; taken = taken } }
    {
        Variables {
            letters: [None; LETTERS],
            taken,
        }
    }

    // Takes one for an item that is a letter not yet met.
    fn take_letter(&mut self, item: u16)
        requires fits { LetterFits item }
        requires few { self.old.taken ≤ 66 }
        ensures taken { LettersTaken (item ∷ []) self.old self.new }
    {
        let Item::Letter(small) = Item::from(item) else {
            return;
        };
        let l = usize::from(small - b'a');
        if self.letters[l].is_none() {
            self.letters[l] = Some(self.taken as u8);
            self.taken += 1;
        }
    }

    // Takes those of the letters of a body that are not yet met.
    pub fn take_letters(&mut self, items: &[u16])
        requires fit { LettersFit items.now }
        requires short { length items.now ≤ 34 }
        requires few { self.old.taken ≤ 32 }
        ensures taken { LettersTaken items.now self.old self.new }
    {
        for item in items {
            self.take_letter(*item);
        }
    }

    // Takes those of the tails of a body of so many items.
    pub fn take_tails(&mut self, items: usize)
        requires short { items ≤ 34 }
        requires few { self.old.taken ≤ 66 }
        ensures tails { self.new ≡ record self.old { taken = self.old.taken + (items - 2) } }
    {
        self.taken += tail_count(items);
    }
}

// How many tails a body of so many items has.
pub fn tail_count(items: usize) -> usize
    ensures tails { result ≡ items - 2 }
{
    items.saturating_sub(2)
}
