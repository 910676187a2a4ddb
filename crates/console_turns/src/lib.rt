// What the turns of a session are made of, apart from the calls on the machine: the stand, the next call of the schedule, the
// steps of a run, and the stand after a call or a run.
#![tactic(auto)]

ghost use Rattle.std.specs.Prelude.{◌≡◌, is_ok};
ghost use Rattle.step_answer.specs.Steps.{answer_in};
ghost use Rattle.sheet.specs.Width.{pick};
ghost use Rattle.console_turns.specs.Stand.{begun, next_of, coming_of, due_of, is_called, call_now, budget_of, arrives, answered_by, goes_on, stood_by};
ghost use Rattle.console_turns.specs.Stand.{log_emptied, is_emptied, emptied_by, ran_by};

use console_schedule::Call;
use mach_registers::{PC, PS};
use sheet::{Bus, Progress, Refusal, State};
use step_answer::{Answer, Ran};

// How a session is played: its limit of steps, whether its runs are single steps, the address that ends it, and whether the log is kept.
#[derive(Clone, Copy)]
pub struct Plan {
    pub limit: u64,
    pub single: bool,
    pub until: Option<usize>,
    pub keeps: bool,
}

// A session's stand: how its last run ended, the machine, sums, how many of the scheduled calls were made and refused, and how many
// bytes of the log were let go. Sums are taken modulo 2^64, which 10^11 steps of 1,028 cycles do not reach.
#[derive(Clone, Copy)]
pub struct Session {
    pub end: Result<(), Refusal>,
    pub state: State,
    pub steps: u64,
    pub cycles: u64,
    pub dropped: u64,
    pub made: usize,
    pub refused: u64,
    pub emptied: u64,
    pub over: bool,
}

// A session before its first step.
pub fn begin(state: State) -> Session
    ensures { result ≡ begun state }
{
    Session {
        end: Ok(()),
        state,
        steps: 0,
        cycles: 0,
        dropped: 0,
        made: 0,
        refused: 0,
        emptied: 0,
        over: false, // also where the limit is 0
    }
}

// The most steps of one run.
fn pace(single: bool) -> u16
    ensures { result ≡ pick single 1 65535 }
{
    if single { 1 } else { u16::MAX }
}

// The steps of the next run: to the limit, to the next call's step, and no more than a run takes.
#[tactic(auto, unfolding(crate::specs::Stand::budget_of))]
pub fn budget(steps: u64, limit: u64, due: u64, single: bool) -> u16
    ensures { result ≡ budget_of steps limit due single }
{
    let left = limit.saturating_sub(steps).min(due.saturating_sub(steps));
    left.min(u64::from(pace(single))) as u16
}

// The next call of the schedule, and the step that it is due at.
#[derive(Clone, Copy)]
pub struct Next {
    pub due: u64,
    pub call: Call,
}

#[tactic(auto, unfolding(crate::specs::Stand::next_of))]
fn scheduled(calls: &[Call], made: usize) -> Option<Next>
    ensures { result ≡ next_of calls.now made }
{
    let call = *calls.get(made)?;
    Some(Next {
        due: call.step,
        call,
    })
}

// A call that would be answered 13, after a segment load, is made after the next step.
#[tactic(auto, unfolding(crate::specs::Stand::coming_of))]
pub fn upcoming(calls: &[Call], s: Session) -> Option<Next>
    ensures { result ≡ coming_of s calls.now }
{
    let next = scheduled(calls, s.made)?;
    if s.state.marks.loaded && next.due <= s.steps {
        return Some(Next {
            due: s.steps.wrapping_add(1),
            ..next
        });
    }
    Some(next)
}

// The step that the next call is due at; without one it is never.
pub fn due(next: Option<Next>) -> u64
    ensures { result ≡ due_of next }
{
    match next {
        Some(next) => next.due,
        None => u64::MAX,
    }
}

// Whether the next call is made before the next step: it is due, or the machine is halted and nothing else will wake it.
#[tactic(auto, unfolding(crate::specs::Stand::is_called))]
pub fn is_called(s: Session, next: Next, limit: u64) -> bool
    ensures { result ≡ is_called s next limit }
{
    s.steps < limit && (next.due <= s.steps || s.state.marks.halted)
}

// The call that is made before the next step, if one is.
#[tactic(auto, unfolding(crate::specs::Stand::call_now))]
pub fn call_now(s: Session, next: Option<Next>, limit: u64) -> Option<Call>
    ensures { result ≡ call_now s next limit }
{
    match next {
        Some(next) if is_called(s, next, limit) => Some(next.call),
        _ => None,
    }
}

// Whether a call or a run that was answered so ends the session by its address.
#[tactic(auto, unfolding(crate::specs::Stand::arrives))]
fn is_there(plan: Plan, done: bool, t: State) -> bool
    ensures { result ≡ arrives plan done t }
{
    let at = mach_memory::address(t.file[PS], t.file[PC]);
    done && plan.until == Some(at)
}

// The stand after an interrupt call, by whether it was accepted and what it left.
#[tactic(auto, unfolding(crate::specs::Stand::answered_by))]
pub fn answered_with(s: Session, plan: Plan, done: bool, state: State, bus: Bus) -> Session
    ensures { result ≡ answered_by s plan done state bus }
{
    let cycles = u64::from(bus.cycles);
    let dropped = u64::from(bus.dropped);
    Session {
        end: Ok(()),
        state,
        cycles: s.cycles.wrapping_add(cycles),
        dropped: s.dropped.wrapping_add(dropped),
        made: s.made.wrapping_add(1),
        refused: s.refused.wrapping_add(u64::from(!done)),
        over: is_there(plan, done, state),
        ..s
    }
}

// The same by the call's answer; a call that is refused leaves the machine as it was.
pub fn answered(s: Session, plan: Plan, a: Result<Answer, Refusal>) -> Session
    ensures { result ≡ answered_by s plan (is_ok a) (answer_in s.state a).state (answer_in s.state a).bus }
{
    let done = a.is_ok();
    let Answer { state, bus } = a.unwrap_or(Answer {
        state: s.state,
        bus: mach_tally::none(),
    });
    answered_with(s, plan, done, state, bus)
}

// Whether a session goes on after a run; a halted machine waits for the next call, if there is one.
#[tactic(auto, unfolding(crate::specs::Stand::goes_on))]
fn goes_on(end: Result<(), Refusal>, steps: u64, limit: u64, waits: bool) -> bool
    ensures { result ≡ goes_on end steps limit waits }
{
    match end {
        Ok(()) => steps < limit,
        Err(Refusal::Halted) => waits,
        Err(_) => false,
    }
}

// The stand after a run whose log stays.
#[tactic(auto, unfolding(crate::specs::Stand::stood_by))]
fn stood(s: Session, plan: Plan, r: Ran, waits: bool) -> Session
    ensures { result ≡ stood_by s plan r.end r.state r.steps r.bus waits }
{
    let steps = s.steps.wrapping_add(u64::from(r.steps));
    let cycles = u64::from(r.bus.cycles);
    let dropped = u64::from(r.bus.dropped);
    Session {
        end: r.end,
        state: r.state,
        steps,
        cycles: s.cycles.wrapping_add(cycles),
        dropped: s.dropped.wrapping_add(dropped),
        over: is_there(plan, r.end.is_ok(), r.state) || !goes_on(r.end, steps, plan.limit, waits),
        ..s
    }
}

// A state with its log's place at the start.
fn without_log(t: State) -> State
    ensures { result ≡ log_emptied t }
{
    State {
        progress: Progress {
            log: 0,
            ..t.progress
        },
        ..t
    }
}

// Whether the log is full and nobody keeps it.
#[tactic(auto, unfolding(crate::specs::Stand::is_emptied))]
fn is_emptied(plan: Plan, end: Result<(), Refusal>, t: State) -> bool
    ensures { result ≡ is_emptied plan end t }
{
    !plan.keeps && matches!(end, Err(Refusal::NoRoom)) && t.progress.log != 0
}

// The stand after a run that filled a log that nobody keeps.
#[tactic(auto, unfolding(crate::specs::Stand::emptied_by))]
fn let_go(s: Session, r: Ran) -> Session
    ensures { result ≡ emptied_by s r.state r.steps r.bus }
{
    let cycles = u64::from(r.bus.cycles);
    let dropped = u64::from(r.bus.dropped);
    Session {
        end: Ok(()),
        state: without_log(r.state),
        steps: s.steps.wrapping_add(u64::from(r.steps)),
        cycles: s.cycles.wrapping_add(cycles),
        dropped: s.dropped.wrapping_add(dropped),
        emptied: s.emptied.wrapping_add(r.state.progress.log as u64),
        over: false,
        ..s
    }
}

// The stand after a run.
#[tactic(auto, unfolding(crate::specs::Stand::ran_by))]
pub fn after(s: Session, plan: Plan, r: Ran, waits: bool) -> Session
    ensures { result ≡ ran_by s plan r.end r.state r.steps r.bus waits }
{
    if is_emptied(plan, r.end, r.state) {
        let_go(s, r)
    } else {
        stood(s, plan, r, waits)
    }
}
