// One step of the quicker run: by a reading where there is one, else by the general path. PC is handed on as a number: read again, it would
// be loaded together with PSW, and that load waits for the stores of both.
ghost use Rattle.std.specs.Prelude.{◌≡◌, true, false, get_or};
ghost use Rattle.sheet.specs.Registers.{PC};
ghost use Rattle.sheet.specs.World.{state_of, marks_of};
ghost use Rattle.quick_pack.specs.Readings.{at_port};
ghost use Rattle.quick_reading.specs.Readings.{Remembers};
ghost use Rattle.quick_run.specs.Ready.{Ready};
ghost use Rattle.quick_run.specs.Turns.{Turns};

use calc_flags::{BRK, MD, flag};
use mach_registers::{PC, PS, PSW};
use quick_place::Reading;
use quick_reading::Slot;
use sheet::{Bus, Progress, Refusal, State};

// The reading of the instruction at PS:PC, or none: a machine that is halted, traced or maybe in the 8080 mode takes the general path.
pub fn next(state: &State, memo: &mut [Slot; 1024], ram: &[u8], rom: &[u8], pc: u16) -> Reading
    requires { Remembers memo.old × (pc ≡ get_or state.now.file PC 0) }
    ensures { Ready state.now ram.now rom.now result.bits × Remembers memo.new }
{
    if state.marks.halted | state.marks.writable {
        return Reading::NONE;
    }
    let traced = flag::<BRK>(state.file[PSW]);
    let native = flag::<MD>(state.file[PSW]);
    if traced | !native {
        return Reading::NONE;
    }
    let ps = state.file[PS];
    let w = quick_window::window(ram, rom, ps, pc);
    quick_reading::recall(memo, pc, w)
}

// No reading loads a segment register or halts.
fn end(state: &mut State, progress: Progress)
    ensures { state.new ≡ state_of state.old.file (marks_of false false false) progress }
{
    state.marks = mach_marks::none();
    state.progress = progress;
}

// A reading at a port. A refusal puts PC back, and has changed nothing else.
fn reach(
    state: &mut State,
    ram: &mut [u8],
    rom: &[u8],
    tape: &[u8],
    log: &mut [u8],
    r: Reading,
    start: u16,
) -> Result<Bus, Refusal>
    requires { Ready state.old ram.old rom.now r.bits × (r.bits ≡ 0 → ⊥) × (at_port r.bits ≡ true) × (start ≡ get_or state.old.file PC 0) }
    ensures { Turns state.old ram.old rom.now tape.now log.old result state.new ram.new log.new }
{
    let begun = step_end::begin(state.progress);
    state.file[PC] = calc_word::plus16(start, r.size());
    match quick_port::access(&mut state.file, ram, rom, tape, log, begun, r, start) {
        Ok(done) => {
            end(state, done.progress);
            Ok(done.bus)
        }
        Err(refusal) => {
            state.file[PC] = start;
            Err(refusal)
        }
    }
}

fn general(
    state: &mut State,
    ram: &mut [u8],
    rom: &[u8],
    tape: &[u8],
    log: &mut [u8],
) -> Result<Bus, Refusal>
    ensures { Turns state.old ram.old rom.now tape.now log.old result state.new ram.new log.new }
{
    let marks = state.marks;
    let progress = state.progress;
    let done = engine::advance(&mut state.file, ram, rom, tape, log, marks, progress)?;
    state.marks = done.marks;
    state.progress = done.progress;
    Ok(done.bus)
}

// One step of a machine that has passed the checks 1 and 2, from the reading that is next.
pub fn turn(
    state: &mut State,
    ram: &mut [u8],
    rom: &[u8],
    tape: &[u8],
    log: &mut [u8],
    r: Reading,
    start: u16,
) -> Result<Bus, Refusal>
    requires { Ready state.old ram.old rom.now r.bits × (start ≡ get_or state.old.file PC 0) }
    ensures { Turns state.old ram.old rom.now tape.now log.old result state.new ram.new log.new }
{
    if r.bits == 0 {
        return general(state, ram, rom, tape, log);
    }
    if quick_pack::at_port(r) {
        return reach(state, ram, rom, tape, log, r, start);
    }
    let bus = quick_perform::perform(&mut state.file, ram, rom, r, start);
    let begun = step_end::begin(state.progress);
    end(state, begun);
    Ok(bus)
}
