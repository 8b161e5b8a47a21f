// The bits of a table: of a place, of a row of 32 as a word, the ones of a word, and the count of the done places.
#![tactic(auto)]

ghost use Rattle.std.specs.Prelude.{◌≡◌, ◌*◌};
ghost use Rattle.bit_machine.specs.BitTable.{half_size};
ghost use Rattle.bits.specs.Half.{number_of};

pub mod count;
pub mod table;
pub mod word;

// The length of a lent bit table, and that of each of its halves.
pub const BITS_BYTES: usize = 16384;

pub const HALF_BYTES: usize = 8192;

// The half of the pending bits, and that of the done bits.
#[derive(Clone, Copy)]
pub enum Half {
    Pending,
    Done,
}

impl Half {
    // Where its bytes begin.
    pub fn begin(self) -> usize
        ensures begins { result ≡ number_of self * half_size }
    {
        match self {
            Half::Pending => 0,
            Half::Done => HALF_BYTES,
        }
    }
}
