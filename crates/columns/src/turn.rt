// The columns of an index are the table turned. The rows of a symbol are a square of 32 by 32 bits, word q the row of
// state q, and its columns are that square with words and bits exchanged. Eight squares are turned at once: word
// q * 8 + x is word q of square x, so that each round works on stretches of words that lie side by side.
ghost use Rattle.std.specs.Prelude.{◌≡◌, true, ℕ, ◌+◌, ◌*◌, ◌/◌, ◌%◌, ◌<◌, ◌≤◌, length, get_or};
ghost use Rattle.bit_machine.specs.BitTable.{bits_size, table_of_bits};
ghost use Rattle.bit_machine.specs.Inside.Index.{RowIs, Written, Blocks, Exchanged, TurnedBy, Turned};
ghost use Rattle.bit_machine.specs.Inside.Index.{ColumnsTurned};
ghost use Rattle.columns.specs.Places.{places_of};

use bits::table;

// Which places of a table are in its columns: those that are there, pending or done, or those that are done.
// Kept (7): a closure for the rows was tried, and its proof did not close: the kit misstates the call's ghost value.
#[derive(Clone, Copy)]
pub enum Places {
    There,
    Done,
}

impl Places {
    // Of a row the places, as a word.
    fn row(self, bits: &[u8], k: usize) -> u32
        requires within { (k < 2048) × (bits_size ≤ length bits.now) }
        ensures row { RowIs (places_of self (table_of_bits bits.now)) k result }
    {
        match self {
            Places::There => table::there_row(bits, k),
            Places::Done => table::done_row(bits, k),
        }
    }
}

// Exchanges the odd blocks of j bits of a word with the even ones of the word at distance d.
fn exchange(words: &mut [u32], k: usize, d: usize, j: usize, mask: u32)
    requires within { (k + d < length words.old) × (1 ≤ d) }
    requires blocks { Blocks j mask }
    ensures exchanged { Exchanged words.old words.new k 1 d j }
{
    let other = k + d;
    let a = words[k];
    let b = words[other];
    words[k] = (a & mask) | ((b & mask) << j);
    words[other] = ((a >> j) & mask) | (b & !mask);
}

// The same for d words from a place on.
fn exchange_run(words: &mut [u32], at: usize, d: usize, j: usize, mask: u32)
    requires within { at + d + d ≤ length words.old }
    requires blocks { Blocks j mask }
    ensures exchanged { Exchanged words.old words.new at d d j }
{
    for n in 0..d {
        exchange(words, at + n, d, j, mask);
    }
}

// A round: exchanges the blocks of j words and j bits of the squares.
fn turn_by(words: &mut [u32], j: usize, mask: u32)
    requires sized { length words.old ≡ 256 }
    requires blocks { Blocks j mask }
    ensures turned { TurnedBy words.old words.new j }
{
    for n in 0..16 / j {
        exchange_run(words, n * (j * 16), j * 8, j, mask);
    }
}

// Turns the squares, by blocks that are halved from round to round.
fn turn_squares(words: &mut [u32])
    requires sized { length words.old ≡ 256 }
    ensures turned { Turned words.old words.new }
{
    turn_by(words, 16, 0x0000ffff);
    turn_by(words, 8, 0x00ff00ff);
    turn_by(words, 4, 0x0f0f0f0f);
    turn_by(words, 2, 0x33333333);
    turn_by(words, 1, 0x55555555);
}

// Copies four rows. All are read before one is written, so that a single load and a single store do it.
fn copy_rows(bits: &[u8], places: Places, k: usize, words: &mut [u32], at: usize)
    requires within { (k + 4 ≤ 2048) × (bits_size ≤ length bits.now) × (at + 4 ≤ length words.old) }
    ensures copied { Written words.old words.new at 4
        (λ i w. RowIs (places_of places (table_of_bits bits.now)) (k + i) w) }
{
    let first = places.row(bits, k);
    let second = places.row(bits, k + 1);
    let third = places.row(bits, k + 2);
    let fourth = places.row(bits, k + 3);
    words[at] = first;
    words[at + 1] = second;
    words[at + 2] = third;
    words[at + 3] = fourth;
}

// Copies the squares of eight symbols, those of group c.
fn copy_squares(bits: &[u8], places: Places, c: usize, words: &mut [u32])
    requires within { (c < 8) × (bits_size ≤ length bits.now) × (length words.old ≡ 256) }
    ensures copied { Written words.old words.new 0 256
        (λ i w. RowIs (places_of places (table_of_bits bits.now)) (i / 8 * 64 + c * 8 + i % 8) w) }
{
    for q in 0..32 {
        let k = q * 64 + c * 8;
        let at = q * 8;
        copy_rows(bits, places, k, words, at);
        copy_rows(bits, places, k + 4, words, at + 4);
    }
}

// Whether no square has a one.
// Kept (2): one function for words and bytes (as in packing::pack) needs a trait with a law of `|`, longer than this.
fn is_blank(words: &[u32]) -> bool
    ensures blank { result ≡ true → (i : ℕ) → get_or words.now i 0 ≡ 0 }
{
    words.iter().fold(0, |any, word| any | *word) == 0
}

// Writes a square to its columns.
fn write_square(words: &[u32], x: usize, index: &mut [u32], at: usize)
    requires within { (length words.now ≡ 256) × (x < 8) × (at + 32 ≤ length index.old) }
    ensures written { Written index.old index.new at 32
        (λ i w. w ≡ get_or words.now (i * 8 + x) 0) }
{
    for r in 0..32 {
        index[at + r] = words[r * 8 + x];
    }
}

// Writes the squares to their columns.
fn write_squares(words: &[u32], index: &mut [u32], at: usize)
    requires within { (length words.now ≡ 256) × (at + 256 ≤ length index.old) }
    ensures written { Written index.old index.new at 256
        (λ i w. w ≡ get_or words.now (i % 32 * 8 + i / 32) 0) }
{
    for x in 0..8 {
        write_square(words, x, index, at + x * 32);
    }
}

// The columns of the eight symbols of group c, where they are zeros yet: without transitions they stay so.
fn turn_group(
    bits: &[u8],
    places: Places,
    c: usize,
    words: &mut [u32],
    index: &mut [u32],
    base: usize,
)
    requires within { (c < 8) × (bits_size ≤ length bits.now) × (length words.old ≡ 256)
        × (base + 2048 ≤ length index.old) }
    requires zeros { (i : ℕ) → i < 2048 → c * 256 ≤ i → get_or index.old (base + i) 0 ≡ 0 }
    ensures sized { length words.new ≡ 256 }
    ensures turned { ColumnsTurned index.old index.new base c (c + 1)
        (places_of places (table_of_bits bits.now)) }
{
    copy_squares(bits, places, c, words);
    if is_blank(words) {
        return;
    }
    turn_squares(words);
    write_squares(words, index, base + c * 256);
}

// The columns of all symbols, from zeros.
pub fn turn_columns(bits: &[u8], places: Places, words: &mut [u32], index: &mut [u32], base: usize)
    requires within { (bits_size ≤ length bits.now) × (length words.old ≡ 256)
        × (base + 2048 ≤ length index.old) }
    requires zeros { (i : ℕ) → i < 2048 → get_or index.old (base + i) 0 ≡ 0 }
    ensures sized { length words.new ≡ 256 }
    ensures turned { ColumnsTurned index.old index.new base 0 8
        (places_of places (table_of_bits bits.now)) }
{
    for c in 0..8 {
        turn_group(bits, places, c, words, index, base);
    }
}
