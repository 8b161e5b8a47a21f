// What the pieces of a text have to do with the grammar of ABNF. Each theorem is carried by a function.
ghost use Rattle.abnf.specs.Theorems.Pieces.{LongestPieces};
ghost use Rattle.abnf.specs.Theorems.Reading.{OfThePart, FirstOutside};

// A text is of the part just where nothing is refused, and then it says one list of rules and no other.
pub fn of_the_part()
    ensures theorem { OfThePart }
{}

// A refusal's offset is the first at which the text has no piece that a text of the part could have there.
pub fn first_outside()
    ensures theorem { FirstOutside }
{}

// A text begins with a piece just where it is the longest that its RFC lets begin there, and is one of the part.
pub fn longest_pieces()
    ensures theorem { LongestPieces }
{}
