// What is wrong with a line of Intel HEX, and how it is passed.
#![tactic(auto)]

ghost use Rattle.std.specs.Prelude.{◌≡◌};
ghost use Rattle.sheet.specs.Refusals.{number_in};
ghost use Rattle.hex_form.specs.Line.{all};
ghost use Rattle.hex_form.specs.Reading.{place, inside, lands_in, lands, fault, segment_after, Passes};

use hex_line::{byte_at, is_formed, is_summed, kind_of, offset_of, size_of, span_of};
use sheet::Refusal;

// Where byte i of a line goes.
#[tactic(auto, unfolding(hex_form::specs::Reading::place))]
pub fn place_of(g: u16, s: &[u8], i: u8) -> usize
    ensures { result ≡ place g s.now i }
{
    16 * g as usize + (offset_of(s) as usize + i as usize) % 65536
}

pub fn is_inside(base: u32, n: usize, a: usize) -> bool
    ensures { result ≡ inside base n a }
{
    let first = base as usize;
    if a < first {
        return false;
    }
    if 1048576 <= a {
        return false;
    }
    a - first < n
}

// Whether the first k bytes of a line land in the image.
fn lands_to(base: u32, n: usize, g: u16, s: &[u8], k: u8) -> bool
    ensures { result ≡ all (lands_in base n g s.now) k }
{
    let mut lands = true;
    for i in 0..k {
        lands &= is_inside(base, n, place_of(g, s, i));
    }
    lands
}

fn does_land(base: u32, n: usize, g: u16, s: &[u8]) -> bool
    ensures { result ≡ lands base n g s.now }
{
    if kind_of(s) == 0 {
        return lands_to(base, n, g, s, size_of(s));
    }
    true
}

// What is wrong with a line, if anything is.
pub fn check_line(base: u32, n: usize, g: u16, s: &[u8]) -> Result<(), Refusal>
    ensures { number_in result ≡ fault base n g s.now }
{
    if !is_formed(s) {
        return Err(Refusal::MalformedLine);
    }
    if !is_summed(s) {
        return Err(Refusal::WrongChecksum);
    }
    if !does_land(base, n, g, s) {
        return Err(Refusal::OutsideImage);
    }
    Ok(())
}

fn segment_after(g: usize, s: &[u8]) -> usize
    ensures { result ≡ segment_after g s.now }
{
    if kind_of(s) == 2 {
        let high = byte_at(s, 4);
        let low = byte_at(s, 5);
        return 256 * high as usize + low as usize;
    }
    g
}

// What a line without a fault is passed with: its kind, its characters, and the segment behind it.
#[derive(Clone, Copy)]
pub struct Passed {
    pub kind: u8,
    pub span: usize,
    pub segment: usize,
}

pub fn pass(g: usize, s: &[u8]) -> Passed
    ensures { Passes g s.now result.kind result.span result.segment }
{
    Passed {
        kind: kind_of(s),
        span: span_of(s),
        segment: segment_after(g, s),
    }
}
