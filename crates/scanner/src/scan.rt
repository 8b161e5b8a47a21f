// The offset at which a text leaves the part.
ghost use Rattle.std.specs.Prelude.{◌≡◌};
ghost use Rattle.abnf.specs.Reading.{follows, is_line_start_lem, is_outside_lem, fault_of};

use crate::pieces;
use abnf::{Edition, Fault, PieceKind, Stage};

// How far a line is read after a piece of a kind.
fn stage_after(stage: Stage, kind: PieceKind) -> Stage
    ensures stage { result ≡ follows stage kind }
{
    match (stage, kind) {
        (Stage::LineStart, PieceKind::NamePiece) => Stage::Named,
        (Stage::Named | Stage::NamedSpaced, PieceKind::MarkPiece) => Stage::Open,
        (Stage::Named, PieceKind::BlankPiece) => Stage::NamedSpaced,
        (
            Stage::Open | Stage::OpenSpaced | Stage::FilledSpaced,
            PieceKind::NamePiece | PieceKind::LiteralPiece,
        ) => Stage::Filled,
        (Stage::Open, PieceKind::BlankPiece) => Stage::OpenSpaced,
        (Stage::Filled | Stage::FilledSpaced, PieceKind::SlashPiece) => Stage::Open,
        (Stage::Filled, PieceKind::BlankPiece) => Stage::FilledSpaced,
        (Stage::Filled | Stage::FilledSpaced, PieceKind::CommentPiece) => Stage::Noted,
        (Stage::Filled | Stage::FilledSpaced | Stage::Noted, PieceKind::EndPiece) => {
            Stage::LineStart
        }
        _ => Stage::Outside,
    }
}

// Whether a line is not begun.
fn is_line_start(stage: Stage) -> bool
    ensures says { result ≡ is_line_start_lem stage }
{
    matches!(stage, Stage::LineStart)
}

// Whether the last piece may not stand where it does.
fn is_outside(stage: Stage) -> bool
    ensures says { result ≡ is_outside_lem stage }
{
    matches!(stage, Stage::Outside)
}

// The offset at which a text leaves the part of an edition, if it does.
pub fn scan(edition: Edition, text: &[u8]) -> Fault
    ensures fault { result ≡ fault_of edition text.now }
{
    if text.is_empty() {
        return Fault::At(0);
    }
    let mut at = 0;
    let mut stage = Stage::LineStart;
    // Kept (3): another form is no plainer, as each step is as long as its piece, and no range gives such offsets.
    while at < text.len() {
        let piece = pieces::piece_at(edition, text, at);
        let next = stage_after(stage, piece.kind);
        if is_outside(next) {
            return Fault::At(at);
        }
        stage = next;
        at += 1 + piece.more;
    }
    if is_line_start(stage) {
        Fault::Nothing
    } else {
        Fault::At(at)
    }
}
