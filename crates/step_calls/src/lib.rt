// What every public call checks first, and the calls that read no instruction: reset and interrupt.
#![tactic(auto)]

ghost use Rattle.std.specs.Prelude.{◌≡◌};
ghost use Rattle.sheet.specs.World.{world};
ghost use Rattle.sheet.specs.Refusals.{number_in};
ghost use Rattle.sheet.specs.Step as definition;
ghost use Rattle.step_answer.specs.Calls.{check_number, held_number};
ghost use Rattle.step_answer.specs.Steps.{answer_in};
ghost use Rattle.step_answer.specs.Lent.{AcceptsOn, InterruptsOn};

use calc_flags::{IE, MD, flag};
use mach_registers::PSW;
use sheet::{Progress, Refusal, State};
use step_answer::Answer;

// The machine as it is when power comes on.
pub fn reset() -> State
    ensures { result ≡ definition.reset }
{
    State {
        file: [0, 0, 0, 0, 0, 0, 0, 0, 0, 0xffff, 0, 0, 0, 0xf002],
        marks: mach_marks::none(),
        progress: Progress {
            tape: 0,
            log: 0,
            count: 0,
        },
    }
}

// Places and count: a u32 is never above the ceiling.
fn places_good(s: State, tape: &[u8], log: &[u8]) -> bool
    ensures { result ≡ definition.places_good s tape.now log.now }
{
    (s.progress.tape <= tape.len()) & (s.progress.log <= log.len())
}

// The fixed bits, and MD: 0 needs the permission.
fn psw_good(s: State) -> bool
    ensures { result ≡ definition.psw_good s }
{
    let psw = s.file[PSW];
    let fixed = calc_flags::fixed(psw);
    let native = flag::<MD>(psw);
    fixed & (native | s.marks.writable)
}

// What every call checks first: 1, then 2.
pub fn check(s: State, ram: &[u8], rom: &[u8], tape: &[u8], log: &[u8]) -> Result<(), Refusal>
    ensures { number_in result ≡ check_number (world s ram.now rom.now tape.now log.now) }
{
    let long = ram.len();
    let n = rom.len();
    if 1048576 < long {
        return Err(Refusal::TooMuchMemory);
    }
    if 1048576 - long < n {
        return Err(Refusal::TooMuchMemory);
    }
    let fixed = psw_good(s);
    let placed = places_good(s, tape, log);
    let marked = mach_marks::good(s.marks);
    if fixed & (placed & marked) {
        return Ok(());
    }
    Err(Refusal::BadState)
}

// The interrupt itself, once it is accepted.
fn accept(s: State, ram: &mut [u8], rom: &[u8], vector: u8) -> Answer
    ensures { AcceptsOn vector s ram rom 0 result.state result.bus }
{
    let mut file = s.file;
    let marks = mach_marks::woken(s.marks);
    let bus = mach_stack::trap(&mut file, ram, rom, vector);
    Answer {
        state: State { file, marks, ..s },
        bus,
    }
}

// What holds an interrupt off: a segment load, 13, or the mask, 7.
fn held_off(s: State, maskable: bool) -> Result<(), Refusal>
    ensures { number_in result ≡ held_number maskable s }
{
    if s.marks.loaded {
        return Err(Refusal::AfterSegmentLoad);
    }
    let ie = flag::<IE>(s.file[PSW]);
    if maskable & !ie {
        return Err(Refusal::Masked);
    }
    Ok(())
}

// An interrupt call: checks 1, 2, 13, 7.
pub fn interrupt(
    s: State,
    ram: &mut [u8],
    rom: &[u8],
    tape: &[u8],
    log: &[u8],
    vector: u8,
    maskable: bool,
) -> Result<Answer, Refusal>
    ensures { InterruptsOn vector maskable s ram rom tape log (number_in result) (answer_in s result).state (answer_in s result).bus }
{
    check(s, ram, rom, tape, log)?;
    held_off(s, maskable)?;
    Ok(accept(s, ram, rom, vector))
}
