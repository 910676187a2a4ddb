// What a step and the calls answer. What is promised of an answer stands in specs/, over the definition alone: theorems need it, and no code.
#![tactic(auto)]

use sheet::{Bus, Marks, Progress, Refusal, State};

// What comes of a step, or of an instruction, that is done: the marks, the places, the bus.
#[derive(Clone, Copy)]
pub struct Advanced {
    pub marks: Marks,
    pub progress: Progress,
    pub bus: Bus,
}

// What a call that is done answers: the state and the bus.
#[derive(Clone, Copy)]
pub struct Answer {
    pub state: State,
    pub bus: Bus,
}

// What a run answers, also one that a refusal ends: how it ended, the state, the steps done and their bus.
#[derive(Clone, Copy)]
pub struct Ran {
    pub end: Result<(), Refusal>,
    pub state: State,
    pub steps: u16,
    pub bus: Bus,
}
