// The reader of a listing: the image that its lines name.
ghost use Rattle.std.specs.Prelude.{◌≡◌, ◌≤◌, length};
ghost use Rattle.sheet.specs.Refusals.{number_in};
ghost use Rattle.base_text.specs.Length.{length_in};
ghost use Rattle.rom_form.specs.Restored.{digit_of, is_digit, restored};
ghost use Rattle.rom_list.specs.Restores.{ends_byte, high_after, Restores};
ghost use Rattle.rom_list.specs.Agrees.{Begins, Agrees};
ghost use Rattle.rom_list.specs.Rebuilds.{Rebuilds};

use super::TOP;
use super::line::line_at;
use base_text::put_bytes;
use sheet::Refusal;

// The value of a hex digit.
fn digit(c: u8) -> u8
    ensures { result ≡ digit_of c }
{
    if c < b'0' {
        0
    } else if c <= b'9' {
        c - b'0'
    } else {
        (c - 55) % 16
    }
}

#[tactic(auto, unfolding(rom_form::specs::Restored::is_digit))]
fn is_digit(column: usize, c: u8) -> bool
    ensures { result ≡ is_digit column c }
{
    (6 <= column) & ((column < 24) & (c != b' '))
}

// Whether a character is the second digit of a byte.
#[tactic(auto, unfolding(crate::specs::Restores::ends_byte))]
fn ends_byte(column: usize, c: u8) -> bool
    ensures { result ≡ ends_byte column c }
{
    is_digit(column, c) & (column % 2 == 1)
}

// The first digit of the byte that is read, once a character was read that does not end it.
fn high_after(column: usize, high: u8, c: u8) -> u8
    ensures { result ≡ high_after column high c }
{
    if is_digit(column, c) { digit(c) } else { high }
}

// The length of the image that lines name, which stands at the start of the room; none where it has too little.
fn restore(lines: &[u8], image: &mut [u8]) -> Option<usize>
    ensures { Restores lines.now image.old result image.new }
{
    let mut column = 0;
    let mut high = 0;
    let mut len = 0;
    for &c in lines {
        let here = column;
        column += 1;
        if c == b'\n' {
            column = 0;
            high = 0;
            continue;
        }
        if ends_byte(here, c) {
            if image.len() <= len {
                return None;
            }
            image[len] = 16 * high + digit(c);
            len += 1;
            high = 0;
            continue;
        }
        high = high_after(here, high, c);
    }
    Some(len)
}

fn begins(s: &[u8], x: &[u8]) -> bool
    ensures { Begins x.now s.now result }
{
    s.starts_with(x)
}

// Whether lines are the listing of an image. The size of each line says where the next begins.
fn agrees(lines: &[u8], image: &[u8]) -> bool
    requires { length image.now ≤ 32768 }
    ensures { Agrees lines.now image.now result }
{
    let mut a = TOP - image.len() as u32;
    let mut at = 0;
    while a < TOP {
        let made = line_at(image, a);
        if !begins(&lines[at..], made.line.as_bytes()) {
            return false;
        }
        at += made.line.len();
        a += made.size as u32;
    }
    at == lines.len()
}

// The image that was restored from lines, if they are its listing and there is room.
fn hand_over(lines: &[u8], image: &[u8], out: &mut [u8]) -> Result<usize, Refusal>
    requires { (image.now ≡ restored lines.now) × (length image.now ≤ 32768) }
    ensures { Rebuilds lines.now out.old (number_in result) (length_in result) out.new }
{
    if !agrees(lines, image) {
        return Err(Refusal::NotAListing);
    }
    if out.len() < image.len() {
        return Err(Refusal::NoRoom);
    }
    Ok(put_bytes(out, image))
}

fn rebuild_by(lines: &[u8], scratch: &mut [u8], out: &mut [u8]) -> Result<usize, Refusal>
    requires { length scratch.old ≡ 32768 }
    ensures { Rebuilds lines.now out.old (number_in result) (length_in result) out.new }
{
    match restore(lines, scratch) {
        Some(len) => hand_over(lines, &scratch[..len], out),
        None => Err(Refusal::NotAListing),
    }
}

// The length of the image, which stands at the start of `out`.
// Lines are restored to the scratch first: nothing is written until they are known to be a listing.
pub fn rebuild(lines: &[u8], scratch: &mut [u8; 32768], out: &mut [u8]) -> Result<usize, Refusal>
    ensures { Rebuilds lines.now out.old (number_in result) (length_in result) out.new }
{
    rebuild_by(lines, scratch, out)
}
