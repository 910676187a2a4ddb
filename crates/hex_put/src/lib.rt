// One line written as Intel HEX.
#![tactic(auto)]

ghost use Rattle.std.specs.Prelude.{◌≡◌, ◌+◌, ◌*◌, ◌≤◌, length};
ghost use Rattle.base_laws.specs.Writes.{Writes};
ghost use Rattle.base_line.specs.Adds.{AddsTo};
ghost use Rattle.hex_form.specs.Line.{sum};
ghost use Rattle.hex_form.specs.Writing.{pairs, at, checksum, line_text, head_bytes, line_bytes};

use base_line::Line;
use base_text::put_bytes;

fn put_pairs(line: &mut Line, bytes: &[u8])
    ensures { AddsTo (pairs bytes.now) line }
{
    for b in bytes {
        line.push_hex(*b as u64, 2);
    }
}

// The sum of all bytes, in a byte.
fn sum_of(bytes: &[u8]) -> u8
    ensures { result ≡ sum (at bytes.now) (length bytes.now) }
{
    let mut sum = 0u8;
    for b in bytes {
        sum = sum.wrapping_add(*b);
    }
    sum
}

fn checksum_of(bytes: &[u8]) -> u8
    ensures { result ≡ checksum bytes.now }
{
    ((256 - sum_of(bytes) as u16) % 256) as u8
}

fn put_line(line: &mut Line, bytes: &[u8])
    ensures { AddsTo (line_text bytes.now) line }
{
    line.push(b':');
    put_pairs(line, bytes);
    line.push_hex(checksum_of(bytes) as u64, 2);
    line.push(b'\n');
}

// The first four bytes of a line.
fn put_head(bytes: &mut [u8], kind: u8, o: u16, n: u8) -> usize
    requires { 4 ≤ length bytes.old }
    ensures { Writes (head_bytes kind o n) bytes.old result bytes.new }
{
    put_bytes(bytes, &[n, (o / 256) as u8, (o % 256) as u8, kind])
}

// The bytes of a line before its checksum.
fn fill(bytes: &mut [u8], kind: u8, o: u16, x: &[u8]) -> usize
    requires { (length x.now ≤ 16) × (20 ≤ length bytes.old) }
    ensures { Writes (line_bytes kind o x.now) bytes.old result bytes.new }
{
    let at = put_head(bytes, kind, o, x.len() as u8);
    at + put_bytes(&mut bytes[at..], x)
}

fn line_of(kind: u8, o: u16, x: &[u8]) -> Line
    requires { length x.now ≤ 16 }
    ensures { result ≡ line_text (line_bytes kind o x.now) }
{
    let mut bytes = [0; 20];
    let n = fill(&mut bytes, kind, o, x);
    let mut line = Line::new();
    put_line(&mut line, &bytes[..n]);
    line
}

// A line of a kind and an offset, with data.
pub fn put_record(out: &mut [u8], kind: u8, o: u16, x: &[u8]) -> usize
    requires { (length x.now ≤ 16) × (2 * length x.now + 12 ≤ length out.old) }
    ensures { Writes (line_text (line_bytes kind o x.now)) out.old result out.new }
{
    put_bytes(out, line_of(kind, o, x).as_bytes())
}
