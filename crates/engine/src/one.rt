// One instruction of a machine that is awake: what it does, the single-step trap, and the count.
ghost use Rattle.engine.specs.OneLent.{SettlesOn, ProceedsOn};
ghost use Rattle.sheet.specs.Execute.{execute};
ghost use Rattle.mach_tally.specs.Bounds.{Within};
ghost use Rattle.engine.specs.ExecuteLent.{PerformsOn};

use super::execute::Performed;
use mach_registers::{PC, PSW};
use sheet::{Instr, Marks, Progress, Refusal};
use step_answer::Advanced;

// What follows an instruction that was not refused.
#[inline(always)]
fn settle(file: &mut [u16; 14], ram: &mut [u8], rom: &[u8], traced: bool, p: Performed) -> Advanced
    requires { Within p.bus 1020 }
    ensures { SettlesOn traced p file ram rom result }
{
    let last = step_end::finish(file, ram, rom, traced & !p.trapped, p.marks);
    Advanced {
        marks: last.marks,
        progress: p.progress,
        bus: mach_tally::both(p.bus, last.bus),
    }
}

// An instruction of so many bytes, with PC moved past it, and back where it is refused.
#[inline(always)]
fn launch(
    file: &mut [u16; 14],
    ram: &mut [u8],
    rom: &[u8],
    tape: &[u8],
    log: &mut [u8],
    marks: Marks,
    progress: Progress,
    i: Instr,
    size: u16,
) -> Result<Performed, Refusal>
    ensures { PerformsOn (execute i size) file ram rom tape log marks progress result }
{
    let start = file[PC];
    file[PC] = calc_word::plus16(start, size);
    let p = super::execute::perform(file, ram, rom, tape, log, marks, progress, i, start);
    if p.is_err() {
        file[PC] = start;
    }
    p
}

// An instruction of so many bytes; a refusal leaves everything as it was.
#[inline(always)]
pub fn proceed(
    file: &mut [u16; 14],
    ram: &mut [u8],
    rom: &[u8],
    tape: &[u8],
    log: &mut [u8],
    marks: Marks,
    progress: Progress,
    i: Instr,
    size: u16,
) -> Result<Advanced, Refusal>
    ensures { ProceedsOn i size file ram rom tape log marks progress result }
{
    let marked = mach_marks::begun(marks, i);
    let traced = step_end::is_traced(file[PSW], marked);
    let begun = step_end::begin(progress);
    match launch(file, ram, rom, tape, log, marked, begun, i, size) {
        Ok(p) => Ok(settle(file, ram, rom, traced, p)),
        Err(refusal) => Err(refusal),
    }
}
