// Single lines.
ghost use Rattle.std.specs.Prelude.{◌+◌, length};
ghost use Rattle.spelling.specs.Lines.{refused_line_lem, number_line_lem, answer_line_lem, code_line_lem};
ghost use Rattle.spelling.specs.Inside.Placed.{Placed, Room};

use crate::page::Page;

impl Page<'_> {
    // A line 'WORD N'.
    pub fn number_line(&mut self, word: &[u8], n: u64)
        requires room { Room self.old (length word.now + 22) }
        ensures placed { Placed (number_line_lem word.now n) (length word.now + 22) self.old self.new }
    {
        self.put_number(word, n);
        self.put(b'\n');
    }

    // The line 'refused N at P'.
    pub fn refused_line(&mut self, number: usize, place: usize)
        requires room { Room self.old 53 }
        ensures placed { Placed (refused_line_lem number place) 53 self.old self.new }
    {
        self.put_number(b"refused", number as u64);
        self.number_line(b" at", place as u64);
    }

    // A line 'WORD yes' or 'WORD no'.
    pub fn answer_line(&mut self, word: &[u8], is: bool)
        requires room { Room self.old (length word.now + 5) }
        ensures placed { Placed (answer_line_lem word.now is) (length word.now + 5) self.old self.new }
    {
        self.put_word(word);
        self.put_word(if is { b" yes\n" } else { b" no\n" });
    }

    // A line 'SYMBOL CODE'.
    pub fn code_line(&mut self, symbol: u64, code: u8)
        requires room { Room self.old 42 }
        ensures placed { Placed (code_line_lem symbol code) 42 self.old self.new }
    {
        self.put_decimal(symbol);
        self.put_spaced(u64::from(code));
        self.put(b'\n');
    }
}
