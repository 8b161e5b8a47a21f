// What the copy that clean writes is. Each theorem is carried by a function.
ghost use Rattle.copies.specs.Theorems.Copies.{CopyFits, CopyAccepted, CopyInOrder, SameLanguage, EmptyCopy};
ghost use Rattle.copies.specs.Theorems.Copies.{CopyOfCopy, CopiesAlike};

// A buffer for 257 records is always long enough.
pub fn copy_fits()
    ensures theorem { CopyFits }
{}

// The copy passes the checks of the verdicts.
pub fn copy_accepted()
    ensures theorem { CopyAccepted }
{}

// Its rules stand behind S in the order of their ranks.
pub fn copy_in_order()
    ensures theorem { CopyInOrder }
{}

// Its start symbol derives the same strings of terminals.
pub fn same_language()
    ensures theorem { SameLanguage }
{}

// The copy of an empty language is S 0 0 0.
pub fn empty_copy()
    ensures theorem { EmptyCopy }
{}

// The copy of a copy has its bytes.
pub fn copy_of_copy()
    ensures theorem { CopyOfCopy }
{}

// Jobs with the same rules and start symbol have the same copy, whatever the order and the other records.
pub fn copies_alike()
    ensures theorem { CopiesAlike }
{}
