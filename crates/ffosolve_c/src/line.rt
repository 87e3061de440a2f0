//! A line of OBF text as C reads it.

ghost use Rattle.std.specs.Prelude.{◌≡◌};
ghost use Rattle.obf_text.specs.Obf.{entry_of, place_of};
ghost use Rattle.ffosolve_c.specs.Lines.{c_line, side_number, IsOfLine};
ghost use Rattle.ffosolve_c.specs.Refusals.{call_status, fault_refusal};

use crate::position::FfosolvePosition;
use obf_text::{Line, LineFault};
use othello_bits::Pos;
use othello_rules::Side;

/// The position of a line. `position` has the masks of the side to move and of the other side;
/// `listed` is how many moves the line lists; `side` is the side to move, 0 for black and 1 for
/// white.
#[repr(C)]
#[derive(Clone, Copy, PartialEq, Eq)]
pub struct FfosolveLine {
    pub position: FfosolvePosition,
    pub listed: usize,
    pub side: i32,
}

fn side_number(side: Side) -> i32
    ensures { result ≡ side_number side }
{
    match side {
        Side::Black => 0,
        Side::White => 1,
    }
}

/// The position of a line as C reads it.
pub fn c_line(line: &Line) -> FfosolveLine
    ensures { result ≡ c_line (entry_of line.now) }
{
    let position = Pos::of_grid(&line.grid);
    FfosolveLine {
        position: FfosolvePosition {
            own: position.own(),
            opp: position.opp(),
        },
        listed: line.listed.len(),
        side: side_number(line.grid.side()),
    }
}

/// The number in a fault: how many squares the line has, or a column from 1. For out of memory,
/// which has no number, it is `otherwise`.
pub fn place_or(fault: LineFault, otherwise: usize) -> usize
    ensures place { IsOfLine (call_status (fault_refusal fault)) → result ≡ place_of fault }
    ensures none { (IsOfLine (call_status (fault_refusal fault)) → ⊥) → result ≡ otherwise }
{
    match fault {
        LineFault::Short(place) | LineFault::BadCell(place) | LineFault::BadSide(place) => place,
        LineFault::Memory => otherwise,
    }
}
