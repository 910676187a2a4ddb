// A run that reads an instruction once and uses the reading again.
#![tactic(auto)]

mod step;
pub mod taken;

ghost use Rattle.std.specs.Prelude.{◌≡◌};
ghost use Rattle.sheet.specs.World.{world};
ghost use Rattle.sheet.specs.Refusals.{number_in};
ghost use Rattle.step_answer.specs.Calls.{check_number};
ghost use Rattle.step_answer.specs.Lent.{RunsOn};
ghost use Rattle.quick_reading.specs.Readings.{Remembers};

use mach_registers::PC;
use quick_place::Reading;
use quick_reading::Slot;
use sheet::State;
use step_answer::Ran;

fn no_readings() -> [Slot; 1024]
    ensures { Remembers result }
{
    [Slot {
        window: 0,
        reading: Reading::NONE,
    }; 1024]
}

// Steps of a machine that has passed the checks 1 and 2, until one refuses or the budget is spent.
fn go_on(s: State, ram: &mut [u8], rom: &[u8], tape: &[u8], log: &mut [u8], budget: u16) -> Ran
    requires { check_number (world s ram.old rom.now tape.now log.old) ≡ 0 }
    ensures { RunsOn budget s ram rom tape log (number_in result.end) result.state result.steps result.bus }
{
    let mut memo = no_readings();
    let mut state = s;
    let mut bus = mach_tally::none();
    for steps in 0..budget {
        let pc = calc_word::word(state.file[PC]);
        let r = step::next(&state, &mut memo, ram, rom, pc);
        match step::turn(&mut state, ram, rom, tape, log, r, pc) {
            Ok(b) => bus = mach_tally::both(bus, b),
            Err(refusal) => {
                return Ran {
                    end: Err(refusal),
                    state,
                    steps,
                    bus,
                };
            }
        }
    }
    Ran {
        end: Ok(()),
        state,
        steps: budget,
        bus,
    }
}

// What `engine::run` comes to, for every budget and every program.
pub fn run(s: State, ram: &mut [u8], rom: &[u8], tape: &[u8], log: &mut [u8], budget: u16) -> Ran
    ensures { RunsOn budget s ram rom tape log (number_in result.end) result.state result.steps result.bus }
{
    match step_calls::check(s, ram, rom, tape, log) {
        Ok(()) => go_on(s, ram, rom, tape, log, budget),
        Err(refusal) => Ran {
            end: Err(refusal),
            state: s,
            steps: 0,
            bus: mach_tally::none(),
        },
    }
}
