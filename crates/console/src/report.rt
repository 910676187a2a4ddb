// What the console prints as it ends.
use crate::session::Setting;
use console_files::Reported;
use console_turns::{Plan, Session};
use sheet::Refusal;
use std::fs::File;
use std::io::Write;

// The line that a refusal says of a session that it ends.
fn words(refusal: Refusal) -> &'static str {
    match refusal {
        Refusal::TooMuchMemory => "RAM and ROM are too long\n",
        Refusal::BadState => "the machine's state is not sound\n",
        Refusal::UnknownInstruction => "the bytes at PS:PC are no instruction\n",
        Refusal::FourthPrefix => "the instruction at PS:PC has a fourth prefix\n",
        Refusal::TapeTooShort => "the tape is read to its end and the program wants more\n",
        Refusal::NoRoom => {
            "the log is full; --steps or --until stop earlier, and without --log it goes on\n"
        }
        Refusal::Halted => "the machine is halted\n",
        // no run ends so
        _ => "\n",
    }
}

// Why a session stopped, by its number and in words: one that was stopped from outside has reached its limit or its address.
fn why(s: Session, plan: Plan) -> (u8, &'static str) {
    match s.end {
        Err(refusal) => (refusal.number(), words(refusal)),
        Ok(()) if s.steps < plan.limit => (0, "the address is reached\n"),
        Ok(()) => (0, "the step limit is reached\n"),
    }
}

// Each part is tried, also behind one that could not be written.

fn print(out: &mut impl Write, text: &str) -> bool {
    out.write_all(text.as_bytes()).is_ok()
}

// A number behind a text.
fn print_number(out: &mut impl Write, text: &str, n: u64) -> bool {
    print(out, text) & write!(out, "{n}").is_ok()
}

// The bytes that were written outside RAM, where there are any, and how to find who wrote them.
fn print_drops(out: &mut impl Write, dropped: u64) -> bool {
    if dropped == 0 {
        return true;
    }
    print_number(out, "\ndropped ", dropped)
        & print(out, " bytes; v30 trace --drops shows which steps")
}

// The machine's counts.
fn print_sums(out: &mut impl Write, s: Session, set: Setting<'_>) -> bool {
    let read = s.state.progress.tape as u64;
    let written = s.emptied.wrapping_add(s.state.progress.log as u64);
    print_number(out, "steps ", s.steps)
        & print_number(out, "\nbus cycles ", s.cycles)
        & print_drops(out, s.dropped)
        & print_number(out, "\ntape ", read)
        & print_number(out, " of ", set.tape.len() as u64)
        & print_number(out, " bytes\nlog ", written)
        & print(out, " bytes\n")
}

// What the schedule came to, where there is one.
fn print_calls(out: &mut impl Write, s: Session, set: Setting<'_>) -> bool {
    if set.calls.is_empty() {
        return true;
    }
    print_number(out, "interrupts ", s.made as u64)
        & print_number(out, " of ", set.calls.len() as u64)
        & print_number(out, " called, ", s.refused)
        & print(out, " refused\n")
}

fn print_end(out: &mut impl Write, s: Session, plan: Plan) -> bool {
    let (number, words) = why(s, plan);
    print_number(out, "stopped with ", number as u64) & print(out, ": ") & print(out, words)
}

// The whole report, its last line last so that a report that is cut short is known.
fn is_printed(out: &mut impl Write, s: Session, ram: &[u8], set: Setting<'_>) -> bool {
    print_sums(out, s, set)
        & print_calls(out, s, set)
        & console_trace::write_registers(out, s.state.file)
        & console_trace::write_stand(out, s.state, ram, set.rom)
        & print_end(out, s, set.plan)
}

// Writes the report, and says so where it cannot.
pub fn keep(
    rt: HostRuntime,
    file: Option<File>,
    s: Session,
    ram: &[u8],
    set: Setting<'_>,
) -> Result<(), Reported> {
    let mut to = console_files::descriptor(rt, file);
    if is_printed(&mut to, s, ram, set) {
        return Ok(());
    }
    console_files::say(rt, b"v30: cannot write the report\n");
    Err(Reported)
}
