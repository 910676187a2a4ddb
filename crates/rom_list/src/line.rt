// One line of the listing of a ROM.
ghost use Rattle.std.specs.Prelude.{◌≡◌, ◌+◌, ◌≤◌, ◌<◌, length};
ghost use Rattle.base_line.specs.Adds.{AddsTo};
ghost use Rattle.rom_form.specs.Listing.{bytes_text, top, whole};
ghost use Rattle.rom_list.specs.Makes.{head_text, instr_line, data_line, MakesByte, Makes, MakesIn};

use base_line::{Line, put_word};
use code_answer::Decoded;
use sheet::Instr;

fn put_digits(line: &mut Line, bytes: &[u8])
    ensures { AddsTo (bytes_text bytes.now) line }
{
    for b in bytes {
        line.push_hex(*b as u64, 2);
    }
}

// The address and the bytes, up to where the words begin.
fn put_head(line: &mut Line, a: u32, bytes: &[u8])
    requires { length bytes.now ≤ 9 }
    ensures { AddsTo (head_text a bytes.now) line }
{
    line.push_hex(a as u64, 5);
    line.push(b' ');
    put_digits(line, bytes);
    line.push_spaces(19 - 2 * bytes.len());
}

fn put_instr_line(line: &mut Line, a: u32, bytes: &[u8], next: u32, i: Instr)
    requires { length bytes.now ≤ 9 }
    ensures { AddsTo (instr_line a bytes.now next i) line }
{
    put_head(line, a, bytes);
    rom_words::put_words(line, next, i);
    line.push(b'\n');
}

fn put_data_line(line: &mut Line, a: u32, bytes: &[u8], b: u8)
    requires { length bytes.now ≤ 9 }
    ensures { AddsTo (data_line a bytes.now b) line }
{
    put_head(line, a, bytes);
    line.push_str("DB ");
    line.push_hex(b as u64, 2);
    line.push(b'\n');
}

// A line, and how many bytes of the image it names.
#[derive(Drop)]
pub struct LineAt {
    pub line: Line,
    pub size: usize,
}

// The byte at a place alone.
fn make_data(image: &[u8], a: u32, k: usize) -> LineAt
    requires { k < length image.now }
    ensures { MakesByte image.now a k result.line result.size }
{
    let mut line = Line::new();
    put_data_line(&mut line, a, &image[k..k + 1], image[k]);
    LineAt { line, size: 1 }
}

// Whether an instruction of n bytes lies in what is left of the image.
fn lies(n: usize, left: usize) -> bool
    ensures { result ≡ whole n left }
{
    (n <= left) & (n <= 9)
}

// The line at an address of the image.
pub fn line_at(image: &[u8], a: u32) -> LineAt
    requires { (top ≤ a + length image.now) × ((a < top) × (length image.now ≤ 32768)) }
    ensures { Makes image.now a result.line result.size }
{
    let k = a as usize + image.len() - 1048576;
    let left = image.len() - k;
    match code_decode::decode(&image[..0], image, (a / 16) as u16, (a % 16) as u16) {
        Ok(Decoded { instr, size }) => {
            let n = size as usize;
            if lies(n, left) {
                let mut line = Line::new();
                put_instr_line(&mut line, a, &image[k..k + n], a + n as u32, instr);
                return LineAt { line, size: n };
            }
            make_data(image, a, k)
        }
        Err(_) => make_data(image, a, k),
    }
}

// How many bytes of text a line has, and how many of the image it names.
#[derive(Clone, Copy)]
pub struct Made {
    pub len: usize,
    pub size: usize,
}

// The same line at the start of 80 bytes that the caller has.
pub fn make_line(line: &mut [u8; 80], image: &[u8], a: u32) -> Made
    requires { (top ≤ a + length image.now) × ((a < top) × (length image.now ≤ 32768)) }
    ensures { MakesIn image.now a line.old result.len result.size line.new }
{
    let made = line_at(image, a);
    Made {
        len: put_word(line, 0, made.line.as_bytes()),
        size: made.size,
    }
}
