// What a table's byte says of a place, and where its reason stands.
ghost use Rattle.std.specs.Prelude.{◌≡◌, ◌<◌};
ghost use Rattle.machine.specs.Table.{reasons_size, is_pending_lem, is_done_lem};
ghost use Rattle.machine.specs.Table.{entry_of};
ghost use Rattle.machine.specs.Inside.Offers.{VariablePlace, reason_place_of};

use crate::{STATE_PLACES, STATE_REASONS, TURN};

// Whether a byte says pending.
pub fn is_pending(b: u8) -> bool
    ensures says { result ≡ is_pending_lem b }
{
    b == 1
}

// Whether a byte says done.
pub fn is_done(b: u8) -> bool
    ensures says { result ≡ is_done_lem b }
{
    matches!(b, 2 | 3)
}

// Where the reason of the transition at a place stands.
pub fn reason_place(place: usize) -> usize
    requires variable { VariablePlace place }
    ensures beside { (result ≡ reason_place_of place) × (result < reasons_size) }
{
    place / STATE_PLACES * STATE_REASONS + place % STATE_REASONS
}

// What stands among the reasons for a transition that was added at a turn.
pub fn entry(reason: u16, turn: u16) -> u32
    ensures entry { result ≡ entry_of reason turn }
{
    u32::from(reason) + TURN * u32::from(turn)
}
