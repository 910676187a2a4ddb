// The public calls step and run, and what both are once the checks that every call makes are passed.
#![tactic(auto)]

pub mod execute;
pub mod one;
mod plain;

ghost use Rattle.std.specs.Prelude.{◌≡◌};
ghost use Rattle.sheet.specs.World.{world};
ghost use Rattle.sheet.specs.Refusals.{number_in};
ghost use Rattle.step_answer.specs.Calls.{check_number};
ghost use Rattle.step_answer.specs.Steps.{answer_in};
ghost use Rattle.step_answer.specs.Lent.{AdvancesOn, MovesOn, StepsOn, RunsOn};
ghost use Rattle.engine.specs.Next.{NextIn};

use calc_flags::{MD, flag};
use code_answer::Decoded;
use mach_registers::{PC, PS, PSW};
use sheet::{Marks, Progress, Refusal, State};
use step_answer::{Advanced, Answer, Ran};

// The instruction at PS:PC in the mode in force.
fn next(file: &[u16; 14], ram: &[u8], rom: &[u8]) -> Result<Decoded, Refusal>
    ensures { NextIn file.now ram.now rom.now result }
{
    let native = flag::<MD>(file[PSW]);
    code_mode::decode(native, ram, rom, file[PS], file[PC])
}

// One step of a machine that has passed the checks 1 and 2.
pub fn advance(
    file: &mut [u16; 14],
    ram: &mut [u8],
    rom: &[u8],
    tape: &[u8],
    log: &mut [u8],
    marks: Marks,
    progress: Progress,
) -> Result<Advanced, Refusal>
    ensures { AdvancesOn file ram rom tape log marks progress result }
{
    if marks.halted {
        return Err(Refusal::Halted);
    }
    match next(file, ram, rom) {
        Ok(read) => one::proceed(
            file, ram, rom, tape, log, marks, progress, read.instr, read.size,
        ),
        Err(refusal) => Err(refusal),
    }
}

// One step of a machine that has passed the checks 1 and 2.
fn move_on(
    s: State,
    ram: &mut [u8],
    rom: &[u8],
    tape: &[u8],
    log: &mut [u8],
) -> Result<Answer, Refusal>
    ensures { MovesOn s ram rom tape log (number_in result) (answer_in s result).state (answer_in s result).bus }
{
    let mut file = s.file;
    let a = advance(&mut file, ram, rom, tape, log, s.marks, s.progress)?;
    Ok(Answer {
        state: State {
            file,
            marks: a.marks,
            progress: a.progress,
        },
        bus: a.bus,
    })
}

// One step: checks 1, 2, 8, then the instruction.
pub fn step(
    s: State,
    ram: &mut [u8],
    rom: &[u8],
    tape: &[u8],
    log: &mut [u8],
) -> Result<Answer, Refusal>
    ensures { StepsOn s ram rom tape log (number_in result) (answer_in s result).state (answer_in s result).bus }
{
    step_calls::check(s, ram, rom, tape, log)?;
    move_on(s, ram, rom, tape, log)
}

// Steps of a machine that has passed the checks 1 and 2, until one refuses or the budget is spent.
fn go_on(s: State, ram: &mut [u8], rom: &[u8], tape: &[u8], log: &mut [u8], budget: u16) -> Ran
    requires { check_number (world s ram.old rom.now tape.now log.old) ≡ 0 }
    ensures { RunsOn budget s ram rom tape log (number_in result.end) result.state result.steps result.bus }
{
    let mut file = s.file;
    let mut marks = s.marks;
    let mut progress = s.progress;
    let mut bus = mach_tally::none();
    for steps in 0..budget {
        match advance(&mut file, ram, rom, tape, log, marks, progress) {
            Ok(a) => {
                marks = a.marks;
                progress = a.progress;
                bus = mach_tally::both(bus, a.bus);
            }
            Err(refusal) => {
                return Ran {
                    end: Err(refusal),
                    state: State {
                        file,
                        marks,
                        progress,
                    },
                    steps,
                    bus,
                };
            }
        }
    }
    Ran {
        end: Ok(()),
        state: State {
            file,
            marks,
            progress,
        },
        steps: budget,
        bus,
    }
}

// A run of at most `budget` steps: checks 1 and 2 once, since no step makes them fail.
pub fn run(s: State, ram: &mut [u8], rom: &[u8], tape: &[u8], log: &mut [u8], budget: u16) -> Ran
    ensures { RunsOn budget s ram rom tape log (number_in result.end) result.state result.steps result.bus }
{
    match step_calls::check(s, ram, rom, tape, log) {
        Ok(()) => go_on(s, ram, rom, tape, log, budget),
        Err(refusal) => Ran {
            end: Err(refusal),
            state: s,
            steps: 0,
            bus: mach_tally::none(),
        },
    }
}
