// What data accesses come to: the one crate that writes a Bus down.
#![tactic(auto)]

ghost use Rattle.std.specs.Prelude.{◌≡◌, ◌+◌, ◌≤◌};
ghost use Rattle.sheet.specs.Memory.{bus_cycles};
ghost use Rattle.mach_tally.specs.Sums.{Free, Costs, Joins, JoinsThree};

use sheet::Bus;

pub fn none() -> Bus
    ensures { Free result }
{
    Bus {
        cycles: 0,
        dropped: 0,
    }
}

#[tactic(auto, unfolding(sheet::specs::Memory::bus_cycles))]
fn cycles(word: bool, offset: u16) -> u32
    ensures { result ≡ bus_cycles word offset }
{
    if word { 1 + ((offset % 2) as u32) } else { 1 }
}

// An access of a width at an offset, or at a port.
pub fn of_access(word: bool, offset: u16) -> Bus
    ensures { Costs word offset 0 result }
{
    of_write(word, offset, 0)
}

// A write, so many bytes of which were dropped.
pub fn of_write(word: bool, offset: u16, dropped: u32) -> Bus
    ensures { Costs word offset dropped result }
{
    Bus {
        cycles: cycles(word, offset),
        dropped,
    }
}

// Accesses, one after the other.
pub fn both(a: Bus, b: Bus) -> Bus
    requires { a.cycles + b.cycles + (a.dropped + b.dropped) ≤ 4294967295 }
    ensures { Joins a b result }
{
    Bus {
        cycles: a.cycles + b.cycles,
        dropped: a.dropped + b.dropped,
    }
}

// Three, where a function has many calls: one fact in place of two.
pub fn three(a: Bus, b: Bus, c: Bus) -> Bus
    requires { a.cycles + (b.cycles + c.cycles) + (a.dropped + (b.dropped + c.dropped)) ≤ 4294967295 }
    ensures { JoinsThree a b c result }
{
    both(a, both(b, c))
}
