// Arguments, files and clock of the programs that people run: what cannot be used is refused with one line on standard error.
#![tactic(auto)]

ghost use Rattle.std.specs.Prelude.{◌≡◌, ◌≤◌, length, is_ok, IfOk, IfSome};
ghost use Rattle.console_schedule.specs.declared.TheConstants.{MOST};

use std::env::{Env, FillError};
use std::fmt::InlineText;
use std::fs::{File, OpenOptions};
use std::io;
use std::io::{Eprint, Print, Read, Stdout, Write};
use std::time::Clock as _;

// The system's numbers for an argument that is missing and for a name that is too long.
const INVALID: i32 = 22;

const TOO_LONG: i32 = 36;

// EILSEQ
const NO_TEXT: i32 = 84;

// The longest name of a file, and the longest argument.
const LONGEST: usize = 4096;

// What failed stands on standard error.
#[derive(Clone, Copy)]
pub struct Reported;

pub fn say(rt: HostRuntime, text: &[u8]) {
    let _ = Print::write_all(&rt.stderr(), text);
}

// Says a number on standard error.
pub fn say_number(rt: HostRuntime, n: u64) {
    let _ = rt.eprint(n);
}

// Says what failed, and why.
fn fail(rt: HostRuntime, what: &[u8], error: io::Error) -> Reported {
    let text = InlineText::<128>::of(error);
    // the system's words, without the number that std puts behind them
    let words = text.as_str();
    let reason = match words.split_once(" (os error ") {
        Some((reason, _)) => reason,
        None => words,
    };
    say(rt, b"v30: ");
    say(rt, what);
    say(rt, b": ");
    say(rt, reason.as_bytes());
    say(rt, b"\n");
    Reported
}

// Why an argument is not there.
fn unfilled(error: FillError) -> io::Error {
    io::Error::from_raw_os_error(match error {
        FillError::NotPresent => INVALID,
        FillError::TooLong => TOO_LONG,
    })
}

// A count that is within a buffer.
pub fn within<T>(n: usize, buffer: &[T]) -> usize
    ensures { result ≤ length buffer.now }
{
    n.min(buffer.len())
}

// A name as std takes it; one that is no text is an error.
fn name(path: &[u8]) -> io::Result<&str> {
    match str::from_utf8(path) {
        Ok(name) => Ok(name),
        Err(_) => Err(io::Error::from_raw_os_error(NO_TEXT)),
    }
}

// Puts the name that an argument is at the start of `path`, and answers its length.
fn put_name(rt: HostRuntime, index: usize, path: &mut [u8; 4096]) -> Result<usize, Reported>
    ensures { IfOk result (λ n. n ≤ 4096) }
{
    match rt.arg(index, path) {
        Ok(n) => Ok(n),
        Err(error) => Err(fail(rt, b"a file's name", unfilled(error))),
    }
}

fn open_read(rt: HostRuntime, path: &[u8]) -> io::Result<File> {
    File::open(&rt, name(path)?)
}

// Fills a buffer from a file, and answers its length; one that does not end within the buffer is too long.
fn fill_whole(rt: HostRuntime, path: &[u8], out: &mut [u8]) -> Result<usize, Reported>
    ensures { IfOk result (λ n. n ≤ length out.new) }
{
    let mut file = match open_read(rt, path) {
        Ok(file) => file,
        Err(error) => return Err(fail(rt, path, error)),
    };
    let len = base_input::read_full(&mut file, out);
    match file.read(&mut [0; 1]) {
        Ok(0) => Ok(len),
        Ok(_) => {
            say(rt, b"v30: ");
            say(rt, path);
            say(rt, b": too long\n");
            Err(Reported)
        }
        Err(error) => Err(fail(rt, path, error)),
    }
}

// Fills a buffer from the file that an argument names, and answers how many bytes it has; an empty argument names none.
pub fn load(rt: HostRuntime, index: usize, out: &mut [u8]) -> Result<usize, Reported>
    ensures { IfOk result (λ n. n ≤ length out.new) }
{
    let mut path = [0; LONGEST];
    match put_name(rt, index, &mut path)? {
        0 => Ok(0),
        n => fill_whole(rt, &path[..n], out),
    }
}

// Whether an argument is empty; one that is missing or too long is not.
pub fn is_left_out(rt: HostRuntime, index: usize) -> bool {
    matches!(rt.arg(index, &mut [0; LONGEST]), Ok(0))
}

// The number that an argument is; one that is missing or too long is none.
pub fn number(rt: HostRuntime, index: usize) -> Option<u64>
    ensures { IfSome result (λ n. n ≤ MOST) }
{
    let mut word = [0; LONGEST];
    let n = rt.arg(index, &mut word).ok()?;
    console_schedule::number(&word[..n])
}

fn create(rt: HostRuntime, path: &[u8]) -> io::Result<File> {
    OpenOptions::new()
        .write(true)
        .create_new(true)
        .open(&rt, name(path)?)
}

// Makes the file that an argument names, if it names one; one that exists is left as it is.
pub fn open(rt: HostRuntime, index: usize) -> Result<Option<File>, Reported> {
    let mut path = [0; LONGEST];
    let path = match put_name(rt, index, &mut path)? {
        0 => return Ok(None),
        n => &path[..n],
    };
    match create(rt, path) {
        Ok(file) => Ok(Some(file)),
        Err(error) => Err(fail(rt, path, error)),
    }
}

// Where text goes that is printed.
#[derive(Drop)]
pub enum Destination {
    File(File),
    Standard(Stdout),
}

impl Write for Destination {
    fn write(&mut self, buf: &[u8]) -> io::Result<usize> {
        match self {
            Destination::File(file) => file.write(buf),
            Destination::Standard(out) => out.write(buf),
        }
    }

    fn flush(&mut self) -> io::Result<()> {
        Ok(())
    }
}

// Where a file's text goes that is printed when no file is wanted.
pub fn descriptor(rt: HostRuntime, file: Option<File>) -> Destination {
    match file {
        Some(file) => Destination::File(file),
        None => Destination::Standard(rt.stdout()),
    }
}

// Says so where something could not be written.
pub fn check_written(rt: HostRuntime, what: &[u8], written: bool) -> Result<(), Reported>
    ensures { is_ok result ≡ written }
{
    if written {
        return Ok(());
    }
    say(rt, b"v30: cannot write ");
    say(rt, what);
    say(rt, b"\n");
    Err(Reported)
}

// Writes bytes to a file that is wanted, and says so where it cannot.
pub fn keep(
    rt: HostRuntime,
    file: Option<File>,
    what: &[u8],
    bytes: &[u8],
) -> Result<(), Reported> {
    match file {
        None => Ok(()),
        Some(mut file) => check_written(rt, what, Write::write_all(&mut file, bytes).is_ok()),
    }
}

// The second that was seen last, where the clock can be read, and how many have changed since the last line.
#[derive(Clone, Copy)]
pub struct Clock {
    pub second: Option<u64>,
    pub changes: u8,
}

// The clock's second, where it can be read.
fn second(rt: HostRuntime) -> Option<u64> {
    rt.since_1970().ok().map(|time| time.as_secs())
}

impl Clock {
    pub fn start(rt: HostRuntime) -> Clock {
        Clock {
            second: second(rt),
            changes: 0,
        }
    }

    // Says about every fifth second how many steps are done.
    pub fn progress(&mut self, rt: HostRuntime, steps: u64) {
        let now_at = second(rt);
        if now_at == self.second {
            return;
        }
        self.second = now_at;
        if self.changes < 4 {
            self.changes += 1;
            return;
        }
        self.changes = 0;
        say(rt, b"v30: ");
        say_number(rt, steps);
        say(rt, b" steps so far\n");
    }
}
