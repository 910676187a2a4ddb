// A session: runs and scheduled interrupt calls, one after the other, up to a limit of steps.
ghost use Rattle.console.specs.Lent.{CalledOn, ContinuedOn, TurnOn, PlaysOn};

use console_schedule::Call;
use console_turns::{Next, Plan, Session, after, answered, budget, call_now, due, upcoming};

// What a session is played with and does not change.
#[derive(Clone, Copy)]
pub struct Setting<'a> {
    pub rom: &'a [u8],
    pub tape: &'a [u8],
    pub calls: &'a [Call],
    pub plan: Plan,
}

fn interrupted(s: Session, ram: &mut [u8], log: &[u8], call: Call, set: Setting<'_>) -> Session
    ensures { CalledOn call set.entry s ram log result }
{
    let a = step_calls::interrupt(
        s.state,
        ram,
        set.rom,
        set.tape,
        log,
        call.vector,
        call.maskable,
    );
    answered(s, set.plan, a)
}

fn continued(
    s: Session,
    ram: &mut [u8],
    log: &mut [u8],
    next: Option<Next>,
    set: Setting<'_>,
) -> Session
    ensures { ContinuedOn next set.entry s ram log result }
{
    let steps = budget(s.steps, set.plan.limit, due(next), set.plan.single);
    let r = quick_run::run(s.state, ram, set.rom, set.tape, log, steps);
    after(s, set.plan, r, next.is_some())
}

// One turn: the next call where it is due, and else a run.
fn turn(s: Session, ram: &mut [u8], log: &mut [u8], set: Setting<'_>) -> Session
    ensures { TurnOn set.entry s ram log result }
{
    let next = upcoming(set.calls, s);
    match call_now(s, next, set.plan.limit) {
        Some(call) => interrupted(s, ram, log, call, set),
        None => continued(s, ram, log, next, set),
    }
}

// At most so many turns of a session that is not over.
pub fn play(mut s: Session, ram: &mut [u8], log: &mut [u8], set: Setting<'_>, turns: u64) -> Session
    ensures { PlaysOn turns set.entry s ram log result }
{
    for _turn in 0..turns {
        if s.over {
            return s;
        }
        s = turn(s, ram, log, set);
    }
    s
}
