// A lent buffer, written piece by piece from its front on. A byte past the buffer's end is counted and not written, so
// that the same methods count what is printed, in an empty buffer, and write it.
// Kept (4): no `fmt::Write` and `write!`. `write_str` can ask its caller for no room, and what `write!` says of the bytes
// it says on `Ok` alone, where `printing::operations` promises them on every input: tried, and the proof did not close
// (`put_word-requires`, `returns`).
ghost use Rattle.std.specs.Prelude.{◌≡◌, [], ◌∷◌, ◌++◌, ◌+◌, ◌<◌, length};
ghost use Rattle.spelling.specs.Words.{ascii, decimal, digit as digitOf};
ghost use Rattle.spelling.specs.Inside.Placed.{Placed, Room};

// The buffer, and how many bytes are written or counted.
#[derive(Drop)]
pub struct Page<'a> {
    out: &'a mut [u8],
    at: usize,
}

// The byte of a digit.
fn digit(d: u64) -> u8
    requires below { d < 10 }
    ensures digit { result ≡ digitOf d }
{
    b'0' + d as u8
}

impl<'a> Page<'a> {
    // A page on which nothing is written.
    pub fn new(out: &'a mut [u8]) -> Page<'a>
        ensures same { result.out.ghost_name ≡ out.entry.ghost_name }
        ensures front { result.at ≡ 0 }
        ensures bytes { result.out.now ≡ out.old }
    {
        Page { out, at: 0 }
    }

    // How many bytes are written or counted.
    pub fn count(&self) -> usize
        ensures count { result ≡ self.now.at }
    {
        self.at
    }

    // A byte.
    pub fn put(&mut self, byte: u8)
        requires room { Room self.old 1 }
        ensures placed { Placed (byte ∷ []) 1 self.old self.new }
    {
        let Page { out, at } = self;
        if *at < out.len() {
            out[*at] = byte;
        }
        *at += 1;
    }

    // A word.
    pub fn put_word(&mut self, word: &[u8])
        requires room { Room self.old (length word.now) }
        ensures placed { Placed word.now (length word.now) self.old self.new }
    {
        for byte in word {
            self.put(*byte);
        }
    }

    // A number in decimal digits.
    pub fn put_decimal(&mut self, n: u64)
        requires room { Room self.old 20 }
        ensures placed { Placed (decimal n) 20 self.old self.new }
    {
        if n < 10 {
            return self.put(digit(n));
        }
        self.put_decimal(n / 10);
        self.put(digit(n % 10));
    }

    // A space and a number.
    pub fn put_spaced(&mut self, n: u64)
        requires room { Room self.old 21 }
        ensures placed { Placed (ascii " " ++ decimal n) 21 self.old self.new }
    {
        self.put(b' ');
        self.put_decimal(n);
    }

    // A word and a number, 'WORD N'.
    pub fn put_number(&mut self, word: &[u8], n: u64)
        requires room { Room self.old (length word.now + 21) }
        ensures placed { Placed (word.now ++ ascii " " ++ decimal n) (length word.now + 21) self.old self.new }
    {
        self.put_word(word);
        self.put_spaced(n);
    }
}
