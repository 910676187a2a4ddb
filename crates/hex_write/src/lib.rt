// An image written as Intel HEX, 16 data bytes a line.
#![tactic(auto)]

ghost use Rattle.std.specs.Prelude.{◌≡◌, ◌++◌, ◌+◌, ◌*◌, ◌-◌, ◌≤◌, ◌<◌, length};
ghost use Rattle.sheet.specs.Refusals.{number_in};
ghost use Rattle.base_laws.specs.Writes.{Writes};
ghost use Rattle.base_text.specs.Length.{length_in};
ghost use Rattle.hex_form.specs.Writing.{segment_text, segment_for, turn_text, chunk_text, hex_text, Ends, WritesHex};

use hex_put::put_record;
use sheet::Refusal;

fn segment_for(g: u16, a: usize) -> u16
    requires { a ≤ 1048575 }
    ensures { result ≡ segment_for g a }
{
    if a + 16 <= 16 * g as usize + 65536 {
        return g;
    }
    (a / 16) as u16
}

fn put_segment(out: &mut [u8], g: u16) -> usize
    requires { 16 ≤ length out.old }
    ensures { Writes (segment_text g) out.old result out.new }
{
    put_record(out, 2, 0, &[(g / 256) as u8, (g % 256) as u8])
}

// A line of kind 02, where the segment changes.
fn put_turn(out: &mut [u8], g: u16, a: usize) -> usize
    requires { (a ≤ 1048575) × (length (turn_text g a) ≤ length out.old) }
    ensures { Writes (turn_text g a) out.old result out.new }
{
    if a + 16 <= 16 * g as usize + 65536 {
        return 0;
    }
    put_segment(out, (a / 16) as u16)
}

// A line of data, and before it the line of its segment where that is new.
fn put_chunk(out: &mut [u8], g: u16, a: usize, x: &[u8]) -> usize
    requires { (a ≤ 1048575) × ((16 * g ≤ a)
        × ((length x.now ≤ 16) × (length (chunk_text g a x.now) ≤ length out.old))) }
    ensures { Writes (chunk_text g a x.now) out.old result out.new }
{
    let at = put_turn(out, g, a);
    let h = segment_for(g, a);
    let offset = (a - 16 * h as usize) as u16;
    at + put_record(&mut out[at..], 0, offset, x)
}

// Where the bytes of a line end that begins at i. Both loops below go by i, from which the address follows.
fn chunk_end(i: usize, n: usize) -> usize
    requires { i < n }
    ensures { Ends i n result }
{
    if n - i < 16 { n } else { i + 16 }
}

fn put_lines(out: &mut [u8], base: usize, image: &[u8]) -> usize
    requires { (base + length image.now ≤ 1048576) × (length (hex_text base image.now) ≤ length out.old) }
    ensures { Writes (hex_text base image.now) out.old result out.new }
{
    let mut at = 0;
    let mut g = 0u16;
    let mut i = 0;
    while i < image.len() {
        let end = chunk_end(i, image.len());
        at += put_chunk(&mut out[at..], g, base + i, &image[i..end]);
        g = segment_for(g, base + i);
        i += 16;
    }
    at + put_record(&mut out[at..], 1, 0, &image[..0])
}

// The characters of a line of m data bytes, with the line of its segment.
fn chunk_len(g: u16, a: usize, m: usize) -> usize
    requires { (a ≤ 1048575) × (m ≤ 16) }
    ensures { result ≡ length (turn_text g a) + (2 * m + 12) }
{
    if a + 16 <= 16 * g as usize + 65536 {
        return 2 * m + 12;
    }
    2 * m + 28
}

fn measure(base: usize, image: &[u8]) -> usize
    requires { base + length image.now ≤ 1048576 }
    ensures { result ≡ length (hex_text base image.now) }
{
    let mut len = 12;
    let mut g = 0u16;
    let mut i = 0;
    while i < image.len() {
        let end = chunk_end(i, image.len());
        len += chunk_len(g, base + i, end - i);
        g = segment_for(g, base + i);
        i += 16;
    }
    len
}

// The length of the text, which stands at the start of `out`. Nothing is written until the whole text is known to fit.
pub fn write(image: &[u8], base: u32, out: &mut [u8]) -> Result<usize, Refusal>
    ensures { WritesHex image.now base out.old (number_in result) (length_in result) out.new }
{
    if 1048576 < image.len() {
        return Err(Refusal::OutsideImage);
    }
    let first = base as usize;
    if 1048576 - image.len() < first {
        return Err(Refusal::OutsideImage);
    }
    if out.len() < measure(first, image) {
        return Err(Refusal::NoRoom);
    }
    Ok(put_lines(out, first, image))
}
