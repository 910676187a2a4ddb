// The calls that the theorems speak of, promised as they take them; and the theorem that both runs come to the same, as a function
// that makes both.
ghost use Rattle.std.specs.Prelude.{◌≡◌};
ghost use Rattle.quick_run.specs.Taken.{StepCallOn, RunCallOn, InterruptCallOn};

use sheet::{Refusal, State};
use step_answer::{Answer, Ran};

pub fn step(
    s: State,
    ram: &mut [u8],
    rom: &[u8],
    tape: &[u8],
    log: &mut [u8],
) -> Result<Answer, Refusal>
    ensures { StepCallOn s ram rom tape log result }
{
    engine::step(s, ram, rom, tape, log)
}

pub fn run(s: State, ram: &mut [u8], rom: &[u8], tape: &[u8], log: &mut [u8], budget: u16) -> Ran
    ensures { RunCallOn budget s ram rom tape log result }
{
    engine::run(s, ram, rom, tape, log, budget)
}

pub fn interrupt(
    s: State,
    ram: &mut [u8],
    rom: &[u8],
    tape: &[u8],
    log: &[u8],
    vector: u8,
    maskable: bool,
) -> Result<Answer, Refusal>
    ensures { InterruptCallOn vector maskable s ram rom tape log result }
{
    step_calls::interrupt(s, ram, rom, tape, log, vector, maskable)
}

#[derive(Clone, Copy)]
pub struct Both {
    pub general: Ran,
    pub quick: Ran,
}

// On a machine lent twice: answers, states, steps and bus are the same, and so are RAM and log afterwards.
pub fn run_both(
    s: State,
    ram: &mut [u8],
    log: &mut [u8],
    ram2: &mut [u8],
    log2: &mut [u8],
    rom: &[u8],
    tape: &[u8],
    budget: u16,
) -> Both
    requires { (ram2.old ≡ ram.old) × (log2.old ≡ log.old) }
    ensures { (result.quick ≡ result.general) × (ram2.new ≡ ram.new) × (log2.new ≡ log.new) }
{
    let general = engine::run(s, ram, rom, tape, log, budget);
    let quick = super::run(s, ram2, rom, tape, log2, budget);
    Both { general, quick }
}
