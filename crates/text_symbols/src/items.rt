// What the numbers of items say.
ghost use Rattle.text_symbols.specs.Inside.Items.{IsItem};

// An item of a body: a character, a letter without regard to its case, or a name by its number.
#[derive(Clone, Copy)]
pub enum Item {
    Character(u8),
    Letter(u8),
    Name(u16),
}

impl From<u16> for Item {
    ghost from_gives = { IsItem };

    fn from(number: u16) -> Item {
        match number {
            0..=255 => Item::Character(number as u8),
            256..=511 => Item::Letter((number - 256) as u8),
            _ => Item::Name(number - 512),
        }
    }
}
