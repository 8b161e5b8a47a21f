// The classes of bytes in a text, and stretches of a class.
ghost use Rattle.std.specs.Prelude.{◌≡◌, ◌&&◌, ◌+◌, ◌≤◌, eqb, length, drop};
ghost use Rattle.std.specs.List.{prefix_len};
ghost use Rattle.abnf.specs.Bytes.{is_alpha_lem, is_digit_lem, is_wsp_lem, lower};
ghost use Rattle.abnf.specs.Pieces.{span, begins};
ghost use Rattle.scanner.specs.Classes.{test_of};

// What a stretch of bytes consists of: the bytes of a name after its first, blanks, what may stand between quotes or in a
// comment, hexadecimal digits.
#[derive(Clone, Copy)]
pub enum ByteClass {
    Name,
    Wsp,
    Quotable,
    Comment,
    Hexdig,
}

// Whether a byte is a letter.
pub fn is_alpha(b: u8) -> bool
    ensures says { result ≡ is_alpha_lem b }
{
    b.is_ascii_alphabetic()
}

// Whether a byte is a decimal digit.
pub fn is_digit(b: u8) -> bool
    ensures says { result ≡ is_digit_lem b }
{
    b.is_ascii_digit()
}

// Whether a byte is a blank or a tab.
pub fn is_wsp(b: u8) -> bool
    ensures says { result ≡ is_wsp_lem b }
{
    matches!(b, b' ' | b'\t')
}

// A letter as a small one; any other byte as it is.
pub fn to_lower(b: u8) -> u8
    ensures lowered { result ≡ lower b }
{
    b.to_ascii_lowercase()
}

// Whether a byte is of a class.
pub fn passes(class: ByteClass, b: u8) -> bool
    ensures says { result ≡ test_of class b }
{
    match class {
        ByteClass::Name => b.is_ascii_alphanumeric() || b == b'-',
        ByteClass::Wsp => is_wsp(b),
        ByteClass::Quotable => matches!(b, b' '..=b'~') && b != b'"',
        ByteClass::Comment => is_wsp(b) || b.is_ascii_graphic(),
        ByteClass::Hexdig => b.is_ascii_hexdigit(),
    }
}

// Whether a byte of a class stands at an offset.
pub fn class_at(class: ByteClass, text: &[u8], at: usize) -> bool
    ensures says { result ≡ begins (test_of class) (drop at text.now) }
{
    at < text.len() && passes(class, text[at])
}

// How many bytes of a class a text begins with.
pub(crate) fn run_length(class: ByteClass, text: &[u8]) -> usize
    ensures length { result ≡ prefix_len (test_of class) text.now }
    ensures within { result ≤ length text.now }
{
    text.iter().take_while(|b| passes(class, **b)).count()
}

// Where the bytes of a class end that begin at an offset.
pub fn run_end(class: ByteClass, text: &[u8], from: usize) -> usize
    requires inside { from ≤ length text.now }
    ensures end { result ≡ from + span (test_of class) (drop from text.now) }
    ensures within { result ≤ length text.now }
{
    from + run_length(class, &text[from..])
}

// Whether this byte stands at an offset.
pub fn stands_at(b: u8, text: &[u8], at: usize) -> bool
    ensures says { result ≡ begins (eqb b) (drop at text.now) }
{
    at < text.len() && b == text[at]
}
