// A line of text that grows: each method puts its text behind what stands there.
// What has no room is left out; who builds a line knows that it is short enough.
#![tactic(auto)]

ghost use Rattle.std.specs.Prelude.{◌≡◌, ◌≤◌, ℕ, List, [], ◌∷◌, length, take, replicate};
ghost use Rattle.base_text.specs.Text.{hex};
ghost use Rattle.base_line.specs.Adds.{AddsTo, PutsTo};

use std::marker::Model;

const ROOM: usize = 80;

#[derive(Drop)]
pub struct Line {
    bytes: [u8; ROOM],
    len: usize,
}

impl Model for Line {
    ghost Value = { List ℕ };

    ghost view = { λ l. take l.len l.bytes };

    ghost invariant = { λ l. l.len ≤ 80 };
}

impl Line {
    pub fn new() -> Self
        ensures { result ≡ [] }
    {
        Line {
            bytes: [0; ROOM],
            len: 0,
        }
    }

    pub fn len(&self) -> usize
        ensures { result ≡ length self.now }
    {
        self.len
    }

    pub fn as_bytes(&self) -> &[u8]
        ensures { result.now ≡ self.now }
    {
        &self.bytes[..self.len]
    }

    pub fn push(&mut self, b: u8)
        ensures { AddsTo (b ∷ []) self }
    {
        if self.len < ROOM {
            self.bytes[self.len] = b;
            self.len += 1;
        }
    }

    pub fn push_bytes(&mut self, x: &[u8])
        ensures { AddsTo x.now self }
    {
        let n = x.len().min(ROOM - self.len);
        self.len += base_text::put_bytes(&mut self.bytes[self.len..], &x[..n]);
    }

    pub fn push_str(&mut self, x: &str)
        ensures { AddsTo x.now self }
    {
        self.push_bytes(x.as_bytes());
    }

    pub fn push_spaces(&mut self, n: usize)
        ensures { AddsTo (replicate n 32) self }
    {
        for _ in 0..n {
            self.push(b' ');
        }
    }

    // The low w hex digits of n, as far as they fit; base_text::put_hex, which wants room for all, says another thing.
    pub fn push_hex(&mut self, n: u64, w: usize)
        ensures { AddsTo (hex w n) self }
    {
        if w > 0 {
            self.push_hex(n / 16, w - 1);
            self.push(base_text::hex_digit(n % 16));
        }
    }
}

// ---- into 80 bytes that the caller has, behind what ends at a place; each answers where its text ends, and cuts off what has no room

pub fn put_word(line: &mut [u8; 80], at: usize, x: &[u8]) -> usize
    ensures { PutsTo x.now line at result }
{
    if at <= ROOM && x.len() <= ROOM - at {
        return at + base_text::put_bytes(&mut line[at..], x);
    }
    if at < ROOM {
        return at + base_text::put_bytes(&mut line[at..], &x[..ROOM - at]);
    }
    at
}

pub fn put_byte(line: &mut [u8; 80], at: usize, b: u8) -> usize
    ensures { PutsTo (b ∷ []) line at result }
{
    put_word(line, at, &[b])
}

// The low w hex digits of n.
#[tactic(auto, using(crate::proofs::Laws::puts_line))]
pub fn put_hex(line: &mut [u8; 80], at: usize, n: u64, w: usize) -> usize
    ensures { PutsTo (hex w n) line at result }
{
    let mut digits = Line::new();
    digits.push_hex(n, w);
    put_word(line, at, digits.as_bytes())
}
