// The numbers of a value: hexadecimal digits with dots between them.
ghost use Rattle.std.specs.Prelude.{◌≡◌, true, cond, ◌∷◌, ◌+◌, ◌*◌, ◌≤◌, ⊤, MatchOption, eqb, length, drop};
ghost use Rattle.abnf.specs.Bytes.{digit_value_lem};
ghost use Rattle.abnf.specs.Pieces.{dotted, is_range_lem, fit, values_from};
ghost use Rattle.scanner.specs.Parts.{part_of_lem, dotted_at, values_after};

use crate::bytes;
use crate::bytes::ByteClass;

// A number of a value, and the offset after its dot if it has one: where the numbers go on.
#[derive(Clone, Copy)]
pub struct ValueEnd {
    pub value: u8,
    pub next: Option<usize>,
}

// The value of a hexadecimal digit.
fn digit_value(b: u8) -> u8
    ensures value { result ≡ digit_value_lem b }
{
    if bytes::is_digit(b) {
        b - b'0'
    } else {
        bytes::to_lower(b).saturating_sub(b'a' - 10)
    }
}

// Whether a digit stands at an offset, or a dot with a digit after it.
fn in_dotted(text: &[u8], at: usize) -> bool
    requires inside { at ≤ length text.now }
    ensures says { result ≡ dotted_at (drop at text.now) }
{
    bytes::class_at(ByteClass::Hexdig, text, at)
        || bytes::stands_at(b'.', text, at) && bytes::class_at(ByteClass::Hexdig, text, at + 1)
}

// How many digits and dots a text begins with.
pub(crate) fn dotted_length(text: &[u8]) -> usize
    ensures length { result ≡ dotted text.now }
    ensures within { result ≤ length text.now }
{
    for at in 0..text.len() {
        if !in_dotted(text, at) {
            return at;
        }
    }
    text.len()
}

// Whether a text begins with digits, a dash and a digit.
pub(crate) fn is_range(text: &[u8]) -> bool
    ensures says { result ≡ is_range_lem text.now }
{
    let end = bytes::run_length(ByteClass::Hexdig, text);
    bytes::stands_at(b'-', text, end) && bytes::class_at(ByteClass::Hexdig, text, end + 1)
}

// The value of a number after one more byte; a dot begins a new number.
fn pushed(value: usize, b: u8) -> usize
    requires small { value ≤ 255 }
    ensures value { result ≡ cond (eqb b 46) 0 (16 * value + digit_value_lem b) }
{
    if b == b'.' {
        0
    } else {
        16 * value + usize::from(digit_value(b))
    }
}

// Whether no number of a text of digits and dots is above FF. A number that is above stays so.
pub(crate) fn values_fit(text: &[u8]) -> bool
    ensures says { result ≡ fit (values_from 0 text.now) }
{
    let mut value = 0;
    for b in text {
        value = pushed(value, *b);
        if value > 255 {
            return false;
        }
    }
    true
}

// The first number of the bytes between two offsets, all of them at most FF.
pub fn first_value(text: &[u8], from: usize, to: usize) -> ValueEnd
    requires inside { (from ≤ to) × (to ≤ length text.now) }
    requires fits { fit (values_from 0 (part_of_lem text.now from to)) ≡ true }
    ensures values { values_from 0 (part_of_lem text.now from to) ≡ result.value ∷ values_after text.now result.next to }
    ensures within { MatchOption result.next ⊤ (λ next. next ≤ to) × (result.value ≤ 255) }
{
    let mut value = 0;
    for at in from..to {
        let b = text[at];
        if b == b'.' {
            return ValueEnd {
                value,
                next: Some(at + 1),
            };
        }
        value = 16 * value + digit_value(b);
    }
    ValueEnd { value, next: None }
}
