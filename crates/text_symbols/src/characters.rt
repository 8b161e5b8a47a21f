// The characters used.
ghost use Rattle.std.specs.Prelude.{◌≡◌, Bool, false, ◌||◌, List, map, ◌++◌, ◌≤◌, length, drop};
ghost use Rattle.grammar.specs.Counting.{count};
ghost use Rattle.abnf_jobs.specs.Characters.{stands_for, some_for, used_below, mapped};
ghost use Rattle.bodies.specs.Items.{item_from_lem};
ghost use Rattle.text_symbols.specs.Letters.{LetterFits, LettersFit};
ghost use Rattle.text_symbols.specs.Marks.{Marked, marked, Numbered};

use crate::BYTES;
use crate::items::Item;
use std::marker::Model;

// Which characters are used, by byte. A clause sees the marks as a list.
#[derive(Drop)]
pub struct Used {
    marks: [bool; BYTES],
}

impl Model for Used {
    ghost Value = { List Bool };

    ghost view = { λ u. u.marks };

    ghost invariant = { λ u. length u.marks ≡ 256 };
}

impl Used {
    // None.
    pub fn new() -> Self
        ensures none { Marked (λ c. false) result }
    {
        Used {
            marks: [false; BYTES],
        }
    }

    // Marks the characters that an item stands for.
    fn mark_item(&mut self, item: u16)
        requires fits { LetterFits item }
        ensures marked { Marked (λ c. marked self.old c || stands_for (item_from_lem item) c) self.new }
    {
        match Item::from(item) {
            Item::Character(c) => self.marks[usize::from(c)] = true,
            Item::Letter(small) => {
                self.marks[usize::from(small)] = true;
                self.marks[usize::from(small - 32)] = true;
            }
            Item::Name(_) => {}
        }
    }

    // Marks the characters that the items of a body stand for.
    #[tactic(auto, using(crate::proofs::MarkedSets::none_marked, crate::proofs::MarkedSets::one_marked))]
    pub fn mark_items(&mut self, items: &[u16])
        requires fit { LettersFit items.now }
        ensures marked { Marked (λ c. marked self.old c || some_for (map item_from_lem items.now) c) self.new }
    {
        for item in items {
            self.mark_item(*item);
        }
    }

    // How many they are.
    pub fn count(&self) -> usize
        ensures count { result ≡ count (marked self.now) 256 }
    {
        self.marks.iter().filter(|mark| **mark).count()
    }

    // The terminal of each, by byte.
    pub fn numbers(&self) -> [u8; BYTES]
        requires few { count (marked self.now) 256 ≤ 32 }
        ensures numbered { Numbered (marked self.now) result }
    {
        let mut numbers = [0; BYTES];
        let mut terminal: u8 = 32;
        for (c, mark) in self.marks.iter().enumerate() {
            numbers[c] = terminal;
            terminal += u8::from(*mark);
        }
        numbers
    }

    // Puts them to the front of a map whose first 32 bytes are 0.
    #[tactic(auto, using(crate::proofs::CharacterMap::filling_none, crate::proofs::CharacterMap::filling_without, crate::proofs::CharacterMap::filling_room, crate::proofs::CharacterMap::filling_with))]
    fn fill_map(&self, map: &mut [u8])
        requires few { count (marked self.now) 256 ≤ 32 }
        requires room { 32 ≤ length map.old }
        ensures filled { map.new ≡ used_below (marked self.now) 256 ++ drop (count (marked self.now) 256) map.old }
    {
        let mut k = 0;
        for (c, mark) in self.marks.iter().enumerate() {
            if *mark {
                map[k] = c as u8;
                k += 1;
            }
        }
    }

    // Writes the map: the characters used, and zeros behind them up to 32 bytes.
    #[tactic(auto, using(crate::proofs::CharacterMap::used_mapped))]
    pub fn write_map(&self, map: &mut [u8])
        requires few { count (marked self.now) 256 ≤ 32 }
        requires room { 32 ≤ length map.old }
        ensures mapped { map.new ≡ mapped (used_below (marked self.now) 256) map.old }
    {
        records::clear::clear_front(map, 32);
        self.fill_map(map)
    }
}
