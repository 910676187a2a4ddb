// Every instruction's operation.
ghost use Rattle.std.specs.Prelude.{◌≡◌, false, Ok};
ghost use Rattle.sheet.specs.Traps.{untrapped};
ghost use Rattle.sheet.specs.Block.{block};
ghost use Rattle.sheet.specs.Ports.{ports};
ghost use Rattle.sheet.specs.Execute.{carding, operation};
ghost use Rattle.engine.specs.ExecuteLent.{PerformsOn};

use mach_stack::Worked;
use sheet::cards::Card;
use sheet::{Bus, Instr, Io, Marks, Primitive, Progress, Refusal, Repeat};

// What an instruction came to: whether it took a trap itself, the marks, the places, the bus.
#[derive(Clone, Copy)]
pub struct Performed {
    pub trapped: bool,
    pub marks: Marks,
    pub progress: Progress,
    pub bus: Bus,
}

// Each kind of answer has a function of its own: a function pays at entry for the size of all its locals.

// One that says itself whether it took a trap.
fn told(marks: Marks, progress: Progress, w: Worked) -> Result<Performed, Refusal>
    ensures { result ≡ Ok (record { trapped = w.trapped; marks = marks; progress = progress; bus = w.bus }) }
{
    Ok(Performed {
        trapped: w.trapped,
        marks,
        progress,
        bus: w.bus,
    })
}

// One that takes no trap and uses no port.
fn quiet(marks: Marks, progress: Progress, bus: Bus) -> Result<Performed, Refusal>
    ensures { result ≡ Ok (record { trapped = false; marks = marks; progress = progress; bus = bus }) }
{
    Ok(Performed {
        trapped: false,
        marks,
        progress,
        bus,
    })
}

fn blocks(
    file: &mut [u16; 14],
    ram: &mut [u8],
    rom: &[u8],
    tape: &[u8],
    log: &mut [u8],
    marks: Marks,
    progress: Progress,
    primitive: Primitive,
    word: bool,
    seg: u8,
    repeat: Repeat,
    start: u16,
) -> Result<Performed, Refusal>
    ensures { PerformsOn (untrapped (block primitive word seg repeat start)) file ram rom tape log marks progress result }
{
    let r = do_blocks::block(
        file, ram, rom, tape, log, progress, primitive, word, seg, repeat, start,
    )?;
    quiet(marks, r.progress, r.bus)
}

fn access(
    file: &mut [u16; 14],
    ram: &mut [u8],
    rom: &[u8],
    tape: &[u8],
    log: &mut [u8],
    marks: Marks,
    progress: Progress,
    i: Io,
) -> Result<Performed, Refusal>
    ensures { PerformsOn (untrapped (ports i)) file ram rom tape log marks progress result }
{
    let r = do_port::access(file, ram, rom, tape, log, progress, i)?;
    quiet(marks, r.progress, r.bus)
}

fn card(
    file: &mut [u16; 14],
    ram: &mut [u8],
    rom: &[u8],
    tape: &[u8],
    log: &mut [u8],
    marks: Marks,
    progress: Progress,
    i: Card,
) -> Result<Performed, Refusal>
    ensures { PerformsOn (untrapped (carding i)) file ram rom tape log marks progress result }
{
    let a = do_8080::card(file, ram, rom, tape, log, marks, progress, i)?;
    quiet(a.marks, a.progress, a.bus)
}

// An instruction that began at the offset `start`; PC stands on the next one.
#[inline(always)]
pub fn perform(
    file: &mut [u16; 14],
    ram: &mut [u8],
    rom: &[u8],
    tape: &[u8],
    log: &mut [u8],
    marks: Marks,
    progress: Progress,
    i: Instr,
    start: u16,
) -> Result<Performed, Refusal>
    ensures { PerformsOn (operation i start) file ram rom tape log marks progress result }
{
    match i {
        Instr::Computes(t) => quiet(marks, progress, super::plain::compute(file, ram, rom, t)),
        Instr::Moves(t) => quiet(marks, progress, super::plain::moves(file, ram, rom, t)),
        Instr::Multiplies(t) => told(marks, progress, do_multiply::multiply(file, ram, rom, t)),
        Instr::Interrupts(t) => told(marks, progress, do_interrupt::interrupt(file, ram, rom, t)),
        Instr::Blocks {
            primitive,
            word,
            seg,
            repeat,
        } => blocks(
            file, ram, rom, tape, log, marks, progress, primitive, word, seg, repeat, start,
        ),
        Instr::Ports(t) => access(file, ram, rom, tape, log, marks, progress, t),
        Instr::Controls(t) => {
            let h = do_control::control(file, marks, t);
            quiet(h, progress, mach_tally::none())
        }
        Instr::Modes(t) => {
            let r = do_mode::mode(file, ram, rom, marks, t);
            quiet(r.marks, progress, r.bus)
        }
        Instr::Cards(t) => card(file, ram, rom, tape, log, marks, progress, t),
    }
}
