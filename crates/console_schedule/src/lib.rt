// Numbers in text, and the schedule of interrupt calls: a line for each, `STEP VECTOR maskable` or `STEP VECTOR unmaskable`,
// where `#` begins a remark.
#![tactic(auto)]

ghost use Rattle.std.specs.Prelude.{◌≤◌, length, IfSome, IfOk};

use std::fmt;

// The largest number that is read.
pub const MOST: u64 = 99999999999;

// The value with one digit more.
fn with_digit(value: u64, digit: u8) -> Option<u64>
    ensures { IfSome result (λ n. n ≤ MOST) }
{
    if MOST / 10 < value || !digit.is_ascii_digit() {
        return None;
    }
    Some(value * 10 + u64::from(digit - b'0'))
}

// The number that a word is, up to `MOST`.
pub fn number(word: &[u8]) -> Option<u64>
    ensures { IfSome result (λ n. n ≤ MOST) }
{
    if word.is_empty() {
        return None;
    }
    let mut value = 0;
    for digit in word {
        value = with_digit(value, *digit)?;
    }
    Some(value)
}

fn is_blank(b: u8) -> bool {
    matches!(b, b' ' | b'\t' | b'\r')
}

// An interrupt call: the step that it comes before, its vector, and whether it may be masked.
#[derive(Clone, Copy, PartialEq, Eq)]
pub struct Call {
    pub step: u64,
    pub vector: u8,
    pub maskable: bool,
}

// What is wrong with a line: it says nothing known, its step is before the last call's, there is no room for its call.
#[derive(Clone, Copy, PartialEq, Eq)]
pub enum Fault {
    Unknown,
    Early,
    Full,
}

impl fmt::Display for Fault {
    fn fmt<W: fmt::Write>(&self, f: &mut fmt::Formatter<W>) -> fmt::Result {
        f.write_str(match self {
            Fault::Unknown => "is not 'STEP VECTOR maskable' or 'STEP VECTOR unmaskable'",
            Fault::Early => "has a smaller step than the line before it",
            Fault::Full => "is one call too many",
        })
    }
}

// The first faulty line of a schedule.
#[derive(Clone, Copy)]
pub struct FaultyLine {
    pub number: usize,
    pub fault: Fault,
}

impl fmt::Display for FaultyLine {
    fn fmt<W: fmt::Write>(&self, f: &mut fmt::Formatter<W>) -> fmt::Result {
        write!(f, "line {} {}", self.number, self.fault)
    }
}

// The call that three words are.
fn call_of(step: &[u8], vector: &[u8], kind: &[u8]) -> Option<Call> {
    let step = number(step)?;
    let vector = u8::try_from(number(vector)?).ok()?;
    let maskable = match kind {
        b"maskable" => true,
        b"unmaskable" => false,
        _ => return None,
    };
    Some(Call {
        step,
        vector,
        maskable,
    })
}

// The call of a line, if it says more than a remark.
fn said(line: &[u8]) -> Result<Option<Call>, Fault> {
    let end = line.iter().position(|b| *b == b'#').unwrap_or(line.len());
    let mut words = line[..end]
        .split(|b| is_blank(*b))
        .filter(|word| !word.is_empty());
    let Some(step) = words.next() else {
        return Ok(None);
    };
    match (words.next(), words.next(), words.next()) {
        (Some(vector), Some(kind), None) => {
            call_of(step, vector, kind).map(Some).ok_or(Fault::Unknown)
        }
        _ => Err(Fault::Unknown),
    }
}

// Puts the call of a line behind `n` others, and answers how many there are then.
fn add(calls: &mut [Call], n: usize, line: &[u8]) -> Result<usize, Fault>
    requires { n ≤ length calls.old }
    ensures { IfOk result (λ m. m ≤ length calls.new) }
{
    let Some(call) = said(line)? else {
        return Ok(n);
    };
    if n == calls.len() {
        return Err(Fault::Full);
    }
    if 0 < n && call.step < calls[n - 1].step {
        return Err(Fault::Early);
    }
    calls[n] = call;
    Ok(n + 1)
}

// Puts the calls of a schedule at the start of `calls`, up to the first faulty line, and answers how many there are.
pub fn read(text: &[u8], calls: &mut [Call]) -> Result<usize, FaultyLine>
    ensures { IfOk result (λ n. n ≤ length calls.new) }
{
    let mut n = 0;
    for (number, line) in (1..).zip(text.split(|b| *b == b'\n')) {
        n = add(calls, n, line).map_err(|fault| FaultyLine { number, fault })?;
    }
    Ok(n)
}
