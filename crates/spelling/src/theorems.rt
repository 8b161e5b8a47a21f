// What decimal digits are proved to mean, carried by a function with no body.
ghost use Rattle.spelling.specs.Theorems.{DecimalSpells};

// Decimal digits spell their number, with no zero in front.
pub fn decimal_spells()
    ensures theorem { DecimalSpells }
{}
