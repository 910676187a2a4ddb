// What is seen of a session that goes by single steps: the lines of its trace, and how often the instruction at each address ran.
use crate::session::Setting;
use console_files::Reported;
use console_schedule::Call;
use console_trace::seen::Counts;
use console_trace::target::Target;
use console_trace::{Traffic, Words};
use console_turns::Session;
use mach_registers::{PC, PS};
use std::fs::File;

// Whether addresses are counted, the first and the last step that are printed, and whether of these only those that dropped a byte.
// Without a first step none is printed, without a last one there is no end.
#[derive(Clone, Copy)]
pub struct Watch {
    pub counts: bool,
    pub from: Option<u64>,
    pub to: Option<u64>,
    pub drops: bool,
}

impl Watch {
    // Whether the next step is printed.
    fn is_on(self, s: Session) -> bool {
        let step = s.steps.wrapping_add(1);
        self.from.is_some_and(|from| from <= step) && self.to.is_none_or(|to| step <= to)
    }

    // The words of the next step, if it is printed.
    pub fn words(self, s: Session, ram: &[u8], set: Setting<'_>) -> Words {
        if self.is_on(s) {
            console_trace::next_words(s.state, ram, set.rom)
        } else {
            console_trace::no_words()
        }
    }

    // Prints what a turn did, where that is wanted.
    pub fn print(
        self,
        rt: HostRuntime,
        words: Words,
        s: Session,
        t: Session,
        log: &[u8],
        set: Setting<'_>,
    ) {
        if self.is_on(s) && (!self.drops || t.dropped != s.dropped) {
            print_turn(rt, words, s, t, log, set);
        }
    }

    // Counts the step that a turn did, where that is wanted.
    pub fn count(self, s: Session, t: Session, counts: &mut Counts) {
        if self.counts && t.steps != s.steps {
            counts.count(s.state.file[PS], s.state.file[PC]);
        }
    }
}

fn traffic(s: Session, t: Session, to: Target) -> Traffic {
    Traffic {
        cycles: t.cycles.wrapping_sub(s.cycles),
        dropped: t.dropped.wrapping_sub(s.dropped),
        to,
    }
}

fn print_step(rt: HostRuntime, words: Words, s: Session, t: Session, log: &[u8]) {
    let bus = traffic(s, t, words.to);
    console_trace::write_step(&mut rt.stdout(), words, t.steps, s.state, t.state, bus, log);
}

fn print_call(rt: HostRuntime, call: Call, s: Session, t: Session, log: &[u8]) {
    let bus = traffic(s, t, Target::Stack);
    console_trace::write_call(
        &mut rt.stdout(),
        u64::from(call.vector),
        t.refused != s.refused,
        s.state,
        t.state,
        bus,
        log,
    );
}

// What a turn did: the call that was made, and the step.
fn print_turn(rt: HostRuntime, words: Words, s: Session, t: Session, log: &[u8], set: Setting<'_>) {
    if t.made != s.made
        && let Some(call) = set.calls.get(s.made)
    {
        print_call(rt, *call, s, t, log);
    }
    if t.steps != s.steps {
        print_step(rt, words, s, t, log);
    }
}

// Writes the counts, where they are wanted.
pub fn keep_counts(rt: HostRuntime, file: Option<File>, counts: &Counts) -> Result<(), Reported> {
    match file {
        None => Ok(()),
        Some(mut file) => {
            if counts.write(&mut file) {
                return Ok(());
            }
            console_files::say(rt, b"v30: cannot write the addresses\n");
            Err(Reported)
        }
    }
}
