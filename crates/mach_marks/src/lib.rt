// The marks of a state, and which instructions set that of a segment load.
#![tactic(auto)]

ghost use Rattle.std.specs.Prelude.{true, false, ◌≡◌};
ghost use Rattle.sheet.specs.World.{marks_of, mark_halted, mark_loaded, mark_writable};
ghost use Rattle.sheet.specs.Step.{marks_good, loads_segment};

use sheet::{Instr, Marks, Move, Stack, Transfer};

// As after reset.
pub fn none() -> Marks
    ensures { result ≡ marks_of false false false }
{
    Marks {
        halted: false,
        loaded: false,
        writable: false,
    }
}

pub fn halting(m: Marks) -> Marks
    ensures { result ≡ mark_halted m true }
{
    Marks { halted: true, ..m }
}

pub fn woken(m: Marks) -> Marks
    ensures { result ≡ mark_halted m false }
{
    Marks { halted: false, ..m }
}

// The permission to write MD, given or taken back.
pub fn permitting(m: Marks, b: bool) -> Marks
    ensures { result ≡ mark_writable m b }
{
    Marks { writable: b, ..m }
}

pub fn good(m: Marks) -> bool
    ensures { result ≡ marks_good m }
{
    !(m.halted & m.loaded)
}

// MOV by 8E, and POP into a segment register.
#[tactic(auto, unfolding(sheet::specs::Step::loads_segment, sheet::specs::Step::moves_in, sheet::specs::Transfer::mov_in, sheet::specs::Stack::pop_in))]
fn loads_segment(i: Instr) -> bool
    ensures { result ≡ loads_segment i }
{
    matches!(
        i,
        Instr::Moves(
            Move::Transfers(Transfer::ToSegment { .. }) | Move::Stacks(Stack::PopSegment { .. }),
        )
    )
}

// With the step that begins.
pub fn begun(m: Marks, i: Instr) -> Marks
    ensures { result ≡ mark_loaded m (loads_segment i) }
{
    Marks {
        loaded: loads_segment(i),
        ..m
    }
}
