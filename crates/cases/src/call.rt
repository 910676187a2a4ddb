// What a case asks for: its buffers laid out, its call made, and the bytes of the result.
ghost use Rattle.std.specs.Prelude.{◌≡◌};
ghost use Rattle.sheet.specs.Refusals.{number_in};
ghost use Rattle.cases.specs.Answered.{answered_as, ran_as};
ghost use Rattle.cases.specs.Called.{reset_as, bytes_of, laid, Reading};
ghost use Rattle.cases.specs.Lent.{CalledOn, ResultOn};

use case_form::{Call, Case};
use sheet::{Bus, GapRule, Refusal, State};
use step_answer::{Answer, Ran};

// What a call on the machine comes to: how it ended, the steps that it did, the state and the bus.
#[derive(Clone, Copy)]
struct Done {
    pub end: Result<(), Refusal>,
    pub steps: u32,
    pub state: State,
    pub bus: Bus,
}

// Document 01's number for how a call ended.
fn number(end: Result<(), Refusal>) -> u8
    ensures { result ≡ number_in end }
{
    match end {
        Ok(()) => 0,
        Err(refusal) => refusal.number(),
    }
}

// What comes of an answer to a call at a state, and of the steps that it did.
fn answered(s: State, a: Result<Answer, Refusal>, steps: u32) -> Done
    ensures { result ≡ answered_as s a steps }
{
    match a {
        Ok(Answer { state, bus }) => Done {
            end: Ok(()),
            steps,
            state,
            bus,
        },
        Err(refusal) => Done {
            end: Err(refusal),
            steps,
            state: s,
            bus: mach_tally::none(),
        },
    }
}

// What comes of a run.
fn ran(r: Ran) -> Done
    ensures { result ≡ ran_as r }
{
    Done {
        end: r.end,
        steps: u32::from(r.steps),
        state: r.state,
        bus: r.bus,
    }
}

fn reset() -> Done
    ensures { result ≡ reset_as }
{
    Done {
        end: Ok(()),
        steps: 0,
        state: step_calls::reset(),
        bus: mach_tally::none(),
    }
}

// The call of a case, of those on the machine; a log reading is none, and does not come here.
fn called(s: State, ram: &mut [u8], rom: &[u8], tape: &[u8], log: &mut [u8], c: Case) -> Done
    ensures { CalledOn c s ram rom tape log result }
{
    match c.call {
        Call::Step => {
            let a = engine::step(s, ram, rom, tape, log);
            answered(s, a, u32::from(a.is_ok()))
        }
        Call::Run => ran(engine::run(s, ram, rom, tape, log, c.budget)),
        Call::Interrupt => {
            let a = step_calls::interrupt(s, ram, rom, tape, log, c.vector, c.maskable);
            answered(s, a, 0)
        }
        Call::Reset | Call::ReadLog => reset(),
        Call::Quick => ran(quick_run::run(s, ram, rom, tape, log, c.budget)),
    }
}

// The bytes for what a call came to, with the sums of RAM and log after it.
fn bytes_of(d: Done, ram: &[u8], log: &[u8]) -> [u8; 88]
    ensures { result ≡ bytes_of d ram.now log.now }
{
    let of_ram = case_bytes::sum(ram);
    let of_log = case_bytes::sum(log);
    case_form::result_of(number(d.end), d.steps, d.bus, d.state, of_ram, of_log)
}

// The bytes that answer such a call.
pub fn result(
    s: State,
    ram: &mut [u8],
    rom: &[u8],
    tape: &[u8],
    log: &mut [u8],
    c: Case,
) -> [u8; 88]
    ensures { ResultOn c s ram rom tape log result }
{
    let d = called(s, ram, rom, tape, log, c);
    bytes_of(d, ram, log)
}

// The bytes that answer a log reading under a gap rule.
pub fn reading(log: &[u8], at: usize, rule: GapRule) -> [u8; 17]
    ensures { Reading rule log.now at result }
{
    let e = log_reader::read_log(log, at, rule);
    let mut out = [0; 17];
    case_form::put_entry(&mut out, e);
    out
}

// A buffer as a case has it: filled, then patched by the patches of its kind.
pub fn lay_out(buffer: &mut [u8], fill: u8, kind: u8, patches: &[u8])
    ensures { buffer.new ≡ laid buffer.old fill kind patches.now }
{
    buffer.fill(fill);
    case_bytes::patch_whole(buffer, kind, patches);
}
