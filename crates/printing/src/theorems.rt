// What the definitions of the outputs are proved to mean, each carried by a function with no body.
ghost use Rattle.printing.specs.Theorems.Printed.{AsPrinted};
ghost use Rattle.printing.specs.Theorems.Lengths.{OutputsFit};

// Some outputs as they are printed.
pub fn as_printed()
    ensures theorem { AsPrinted }
{}

// How long an output can be.
pub fn outputs_fit()
    ensures theorem { OutputsFit }
{}
