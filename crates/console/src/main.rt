// The console: runs a ROM over a tape from reset on, as its arguments say. It begins only when all of them can be used, and makes its
// files anew. In the gate: the demonstration ROM over its tape.
#![tactic(auto)]

mod arguments;
mod files;
mod report;
mod session;
mod watch;

ghost use Rattle.std.specs.Prelude.{◌≤◌, length, IfOk};
ghost use Rattle.sheet.specs.Step.{reset};
ghost use Rattle.console_turns.specs.Stand.{begun};
ghost use Rattle.console.specs.Lent.{PlaysOn};

use arguments::Argument;
use console_files::{Clock, Reported, say, say_number};
use console_schedule::{Call, MOST};
use console_trace::seen::Counts;
use console_turns::{Plan, Session};
use files::Files;
use session::Setting;
use std::io::Eprint;
use watch::Watch;

// How many steps a session has that is given no limit.
const STEPS: u64 = 10000000;

// How many addresses there are.
const ADDRESSES: usize = 1048576;

// A buffer comes from a function: of a call's result the length is known, and no check computes its elements.

fn bytes<const N: usize>() -> [u8; N] {
    [0; N]
}

fn call_buffer() -> [Call; 32768] {
    let first = Call {
        step: 0,
        vector: 0,
        maskable: false,
    };
    [first; 32768]
}

// One turn of a session, and what is seen of it.
fn go_on(
    rt: HostRuntime,
    s: Session,
    ram: &mut [u8],
    log: &mut [u8],
    set: Setting<'_>,
    w: Watch,
    counts: &mut Counts,
) -> Session
    ensures { PlaysOn 1 set.entry s ram log result }
{
    let words = w.words(s, ram, set);
    let t = session::play(s, ram, log, set, 1);
    w.print(rt, words, s, t, log, set);
    w.count(s, t, counts);
    t
}

// Plays a session from reset on to its end, or to more turns than anyone waits for.
fn play(
    rt: HostRuntime,
    ram: &mut [u8],
    log: &mut [u8],
    set: Setting<'_>,
    w: Watch,
    counts: &mut Counts,
) -> Session
    ensures { PlaysOn 18446744073709551615 set.entry (begun reset) ram log result }
{
    let mut s = console_turns::begin(step_calls::reset());
    let mut clock = Clock::start(rt);
    for _turn in 0..u64::MAX {
        if s.over {
            return s;
        }
        s = go_on(rt, s, ram, log, set, w, counts);
        clock.progress(rt, s.steps);
    }
    s
}

// Plays, writes the files and then the report.
fn conclude(rt: HostRuntime, ram: &mut [u8], set: Setting<'_>, w: Watch) -> Result<(), Reported> {
    let files = Files::open(rt)?;
    let mut log: [u8; 65536] = bytes();
    let mut counts = Counts::new();
    let s = play(rt, ram, &mut log, set, w, &mut counts);
    let report = files.keep(rt, s, ram, &log, &counts)?;
    report::keep(rt, report, s, ram, set)
}

// The plan of a session by its arguments.
fn planned(rt: HostRuntime, limit: u64) -> Plan {
    let until = match Argument::Until.number(rt) {
        Some(until @ 0..=1048575) => Some(until as usize),
        _ => None,
    };
    Plan {
        limit,
        single: until.is_some() || Argument::From.is_given(rt) || Argument::Seen.is_given(rt),
        until,
        keeps: Argument::Log.is_given(rt),
    }
}

fn watched(rt: HostRuntime) -> Watch {
    Watch {
        counts: Argument::Seen.is_given(rt),
        from: Argument::From.number(rt),
        to: Argument::To.number(rt),
        drops: Argument::Drops.is_given(rt),
    }
}

// The step limit.
fn step_limit(rt: HostRuntime) -> Result<u64, Reported> {
    Argument::Steps.number_or(rt, STEPS).ok_or_else(|| {
        say(rt, b"v30: --steps takes a number from 0 to ");
        say_number(rt, MOST);
        say(rt, b"\n");
        Reported
    })
}

// How much RAM there is: what the ROM leaves of the address space, or less.
fn ram_size(rt: HostRuntime, rom: usize) -> Result<usize, Reported>
    ensures { IfOk result (λ n. n ≤ 1048576) }
{
    let most = ADDRESSES.saturating_sub(rom) as u64;
    match Argument::Ram.number_or(rt, most) {
        Some(size) if size <= most => Ok(size as usize),
        _ => {
            say(rt, b"v30: --ram takes a number from 0 to ");
            say_number(rt, most);
            say(rt, b", what the ROM leaves of 1048576\n");
            Err(Reported)
        }
    }
}

// Reads the schedule of interrupt calls, and answers how many there are. As a call of its own it gives its buffer back before a session.
#[inline(never)]
fn load_schedule(rt: HostRuntime, calls: &mut [Call]) -> Result<usize, Reported>
    ensures { IfOk result (λ n. n ≤ length calls.new) }
{
    let mut text: [u8; ADDRESSES] = bytes();
    let size = Argument::Interrupts.load(rt, &mut text)?;
    console_schedule::read(&text[..size], calls).map_err(|faulty| {
        say(rt, b"v30: --interrupts: line ");
        say_number(rt, faulty.number as u64);
        let _ = eprintln!(rt; " {}", faulty.fault);
        Reported
    })
}

// Reads what the arguments name, and plays.
fn run(rt: HostRuntime) -> Result<(), Reported> {
    let mut rom: [u8; ADDRESSES] = bytes();
    let size = Argument::Rom.load(rt, &mut rom)?;
    if size == 0 {
        say(rt, b"v30: the ROM is empty\n");
        return Err(Reported);
    }
    let mut tape: [u8; ADDRESSES] = bytes();
    let tape_size = Argument::Tape.load(rt, &mut tape)?;
    let mut calls = call_buffer();
    let call_count = load_schedule(rt, &mut calls)?;
    let ram_size = ram_size(rt, size)?;
    let limit = step_limit(rt)?;
    let mut ram: [u8; ADDRESSES] = bytes();
    Argument::RamIn.load(rt, &mut ram[..ram_size])?;
    let set = Setting {
        rom: &rom[..size],
        tape: &tape[..tape_size],
        calls: &calls[..call_count],
        plan: planned(rt, limit),
    };
    conclude(rt, &mut ram[..ram_size], set, watched(rt))
}

fn main(rt: HostRuntime) {
    // what failed is said by then
    let _ = run(rt);
}
