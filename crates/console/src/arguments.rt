// The console's arguments, of which an empty one is left out, in their order.
ghost use Rattle.std.specs.Prelude.{◌≤◌, length, IfOk};

use console_files::Reported;
use std::fs::File;

#[derive(Clone, Copy)]
pub enum Argument {
    Rom = 1,
    Tape = 2,
    Interrupts = 3,
    Log = 4,
    Ram = 5,
    Steps = 6,
    Until = 7,
    RamIn = 8,
    RamOut = 9,
    Seen = 10,
    From = 11,
    To = 12,
    Report = 13,
    Drops = 14,
}

impl Argument {
    pub fn is_given(self, rt: HostRuntime) -> bool {
        !console_files::is_left_out(rt, self as usize)
    }

    // The number that it is; one that is left out is none.
    pub fn number(self, rt: HostRuntime) -> Option<u64> {
        console_files::number(rt, self as usize)
    }

    // The number that it is, or another where it is left out.
    pub fn number_or(self, rt: HostRuntime, other: u64) -> Option<u64> {
        if self.is_given(rt) {
            self.number(rt)
        } else {
            Some(other)
        }
    }

    // Fills a buffer from the file that it names, and answers how many bytes it has; one that is left out names none.
    pub fn load(self, rt: HostRuntime, out: &mut [u8]) -> Result<usize, Reported>
        ensures { IfOk result (λ n. n ≤ length out.new) }
    {
        console_files::load(rt, self as usize, out)
    }

    // Makes the file that it names, if it names one.
    pub fn open(self, rt: HostRuntime) -> Result<Option<File>, Reported> {
        console_files::open(rt, self as usize)
    }
}
