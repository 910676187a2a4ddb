// What every step has, whatever its instruction: the count, and the single-step trap.
#![tactic(auto)]

ghost use Rattle.std.specs.Prelude.{◌≡◌, not, ◌&&◌};
ghost use Rattle.sheet.specs.Log.{rule, risen};
ghost use Rattle.sheet.specs.Psw as sheet;
ghost use Rattle.sheet.specs.Psw.{flag_of};
ghost use Rattle.step_end.specs.Finishes.{begun_at};
ghost use Rattle.step_end.specs.Lent.{FinishesOn};

use calc_flags::{BRK, flag};
use sheet::{Bus, Marks, Progress};

// The count once one more step is done.
pub fn count_on(count: u32) -> u32
    ensures { result ≡ risen rule count }
{
    count.saturating_add(1)
}

#[derive(Clone, Copy)]
pub struct Finished {
    pub marks: Marks,
    pub bus: Bus,
}

// The trap to vector 1, which ends a halt.
pub fn finish(
    file: &mut [u16; 14],
    ram: &mut [u8],
    rom: &[u8],
    traced: bool,
    marks: Marks,
) -> Finished
    ensures { FinishesOn traced file ram rom marks result }
{
    if traced {
        Finished {
            marks: mach_marks::woken(marks),
            bus: mach_stack::trap(file, ram, rom, 1),
        }
    } else {
        Finished {
            marks,
            bus: mach_tally::none(),
        }
    }
}

// Whether the single-step trap follows a step that takes no trap itself: not after a segment load.
pub fn is_traced(psw: u16, marked: Marks) -> bool
    ensures { result ≡ (flag_of psw sheet.BRK && not marked.loaded) }
{
    flag::<BRK>(psw) & !marked.loaded
}

// Where tape, log and count stand once the instruction has begun.
pub fn begin(q: Progress) -> Progress
    ensures { result ≡ begun_at q }
{
    Progress {
        count: count_on(q.count),
        ..q
    }
}
