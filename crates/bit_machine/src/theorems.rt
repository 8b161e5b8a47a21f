// The theorems about bit tables that specs/ states. A function here does nothing; its contract is the theorem, so that
// the check of the crate proves the statement as it stands.
ghost use Rattle.bit_machine.specs.Theorems.Steps.{StepBitByBit, StepsBitsAddUp};
ghost use Rattle.bit_machine.specs.Theorems.Turns.{StepTurnsBits, RunReasonsFitBits};
ghost use Rattle.bit_machine.specs.Theorems.Kept.{FinishedBitsStay, RestOfBitsIsKept};

// What one step does to the bits.
pub fn step_bit_by_bit()
    ensures theorem { StepBitByBit }
{}

// Steps m then n equal steps m + n, and so do their counts.
pub fn steps_bits_add_up()
    ensures theorem { StepsBitsAddUp }
{}

// What a step adds has the ones of the done half after it as its turn, at most 65,535.
pub fn step_turns_bits()
    ensures theorem { StepTurnsBits }
{}

// From a start on bits, every reason is explained by done transitions of earlier turns.
pub fn run_reasons_fit_bits()
    ensures theorem { RunReasonsFitBits }
{}

// Steps on a bit table without a pending place change no bit and no reason.
pub fn finished_bits_stay()
    ensures theorem { FinishedBitsStay }
{}

// Past the first 16,384 bytes and 32,768 reasons nothing is written.
pub fn rest_of_bits_is_kept()
    ensures theorem { RestOfBitsIsKept }
{}
