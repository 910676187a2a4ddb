// Intel HEX read into a lent image: all lines are checked first, then their bytes are stored.
#![tactic(auto)]

ghost use Rattle.std.specs.Prelude.{◌≡◌, length};
ghost use Rattle.hex_form.specs.Reading.{verdict, number_of, verdict_of, store, stored, applied};
ghost use Rattle.hex_form.specs.Reading.{first_stores, store_at, line_stores, stores_of, Reads};
ghost use Rattle.hex_read.specs.Answer.{reading_number, reading_line};

use hex_fault::{check_line, is_inside, pass, place_of};
use hex_line::{byte_at, kind_of, size_of};
use sheet::Refusal;

// Why a text was refused, and at which line, counted from 1.
#[derive(Clone, Copy, PartialEq, Eq)]
pub struct Faulty {
    pub refusal: Refusal,
    pub line: usize,
}

// The first refusal of a text, if any. How long a line is says where the next begins, here and in `store_lines`.
fn check(text: &[u8], base: u32, n: usize) -> Result<(), Faulty>
    ensures { verdict_of base n text.now ≡ verdict (reading_number result) (reading_line result) }
{
    let mut at = 0;
    let mut segment = 0u16;
    let mut line = 1;
    while at < text.len() {
        if let Err(refusal) = check_line(base, n, segment, &text[at..]) {
            return Err(Faulty { refusal, line });
        }
        let p = pass(segment as usize, &text[at..]);
        at += p.span;
        line += 1;
        if p.kind == 1 {
            if at == text.len() {
                return Ok(());
            }
            return Err(Faulty {
                refusal: Refusal::MalformedLine,
                line,
            });
        }
        segment = p.segment as u16;
    }
    Err(Faulty {
        refusal: Refusal::MalformedLine,
        line,
    })
}

fn store_byte(image: &mut [u8], base: u32, a: usize, v: u8)
    ensures { image.new ≡ stored base (store a v) image.old }
{
    if is_inside(base, image.len(), a) {
        image[a - base as usize] = v;
    }
}

// Stores the first k bytes of a line.
fn store_to(image: &mut [u8], base: u32, g: u16, s: &[u8], k: u8)
    ensures { image.new ≡ applied base (first_stores (store_at g s.now) k) image.old }
{
    for i in 0..k {
        store_byte(image, base, place_of(g, s, i), byte_at(s, i as usize + 4));
    }
}

fn store_line(image: &mut [u8], base: u32, g: u16, s: &[u8])
    ensures { image.new ≡ applied base (line_stores g s.now) image.old }
{
    if kind_of(s) == 0 {
        store_to(image, base, g, s, size_of(s));
    }
}

// Stores the bytes of a text that is known to be good.
fn store_lines(image: &mut [u8], base: u32, text: &[u8])
    requires { number_of (verdict_of base (length image.old) text.now) ≡ 0 }
    ensures { image.new ≡ applied base (stores_of text.now) image.old }
{
    let mut at = 0;
    let mut segment = 0u16;
    while at < text.len() {
        let p = pass(segment as usize, &text[at..]);
        if p.kind == 1 {
            return;
        }
        store_line(image, base, segment, &text[at..]);
        at += p.span;
        segment = p.segment as u16;
    }
}

// Nothing is stored until every line is known to be good.
pub fn read(text: &[u8], image: &mut [u8], base: u32) -> Result<(), Faulty>
    ensures { Reads text.now base image.old (reading_number result) (reading_line result) image.new }
{
    match check(text, base, image.len()) {
        Ok(()) => {
            store_lines(image, base, text);
            Ok(())
        }
        Err(faulty) => Err(faulty),
    }
}
