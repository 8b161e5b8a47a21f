// The symbols of items.
ghost use Rattle.std.specs.Prelude.{◌≡◌, ◌≤◌, map, length, take};
ghost use Rattle.text_symbols.specs.Keys.{ItemFits, ItemsFit, symbol_by};

use crate::BYTES;
use crate::items::Item;
use crate::letters::Variables;

// What items stand for: the variables of letters, and the terminals of characters, by byte.
#[derive(Clone, Copy)]
pub struct Symbols<'a> {
    pub variables: &'a Variables,
    pub numbers: &'a [u8; BYTES],
}

impl Symbols<'_> {
    // The symbol of an item.
    pub fn of(self, item: u16) -> u8
        requires fits { ItemFits item }
        ensures symbol { result ≡ symbol_by self.entry.variables.now self.entry.numbers.now item }
    {
        match Item::from(item) {
            Item::Character(c) => self.numbers[usize::from(c)],
            Item::Letter(small) => self.variables.letters[usize::from(small - b'a')].unwrap_or(
                u8::MAX,
            ),
            Item::Name(name) => name as u8,
        }
    }

    // Puts the symbols of items to the front of a body.
    pub fn put(self, items: &[u16], body: &mut [u8])
        requires fit { ItemsFit items.now }
        requires room { length items.now ≤ length body.old }
        ensures size { length body.new ≡ length body.old }
        ensures symbols { take (length items.now) body.new
            ≡ map (symbol_by self.entry.variables.now self.entry.numbers.now) items.now }
    {
        for (i, item) in items.iter().enumerate() {
            body[i] = self.of(*item);
        }
    }
}
