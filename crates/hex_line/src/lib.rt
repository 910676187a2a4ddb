// One line of Intel HEX, given by the text from its first character on.
#![tactic(auto)]

ghost use Rattle.std.specs.Prelude.{◌≡◌, ◌≤◌, get_or};
ghost use Rattle.hex_form.specs.Line.{all, sum, digit, digit_at, byte, size, offset, kind};
ghost use Rattle.hex_form.specs.Line.{ending, width, span, taken, formed, summed, written};

// Past the end of the text every character is 0.
fn char_at(s: &[u8], i: usize) -> u8
    ensures { result ≡ get_or s.now i 0 }
{
    if i < s.len() { s[i] } else { 0 }
}

// The value of a digit. Any other character has 16, with which the definition of a line's bytes reckons: so no Option.
fn value_of(c: u8) -> u8
    ensures { result ≡ digit c }
{
    match c {
        b'0'..=b'9' => c - b'0',
        b'A'..=b'F' => c - b'A' + 10,
        b'a'..=b'f' => c - b'a' + 10,
        _ => 16,
    }
}

#[tactic(auto, unfolding(hex_form::specs::Line::byte))]
pub fn byte_at(s: &[u8], i: usize) -> u8
    requires { i ≤ 300 }
    ensures { result ≡ byte s.now i }
{
    let high = value_of(char_at(s, 2 * i + 1));
    let low = value_of(char_at(s, 2 * i + 2));
    ((16 * high as u16 + low as u16) % 256) as u8
}

#[tactic(auto, unfolding(hex_form::specs::Line::size))]
pub fn size_of(s: &[u8]) -> u8
    ensures { result ≡ size s.now }
{
    byte_at(s, 0)
}

#[tactic(auto, unfolding(hex_form::specs::Line::offset))]
pub fn offset_of(s: &[u8]) -> u16
    ensures { result ≡ offset s.now }
{
    let high = byte_at(s, 1);
    let low = byte_at(s, 2);
    256 * high as u16 + low as u16
}

#[tactic(auto, unfolding(hex_form::specs::Line::kind))]
pub fn kind_of(s: &[u8]) -> u8
    ensures { result ≡ kind s.now }
{
    byte_at(s, 3)
}

// Whether the first k characters behind the colon are digits.
fn digits_to(s: &[u8], k: usize) -> bool
    ensures { result ≡ all (digit_at s.now) k }
{
    let mut digits = true;
    for i in 0..k {
        digits &= value_of(char_at(s, i + 1)) < 16;
    }
    digits
}

// The sum of the first k bytes, in a byte.
fn sum_to(s: &[u8], k: usize) -> u8
    requires { k ≤ 300 }
    ensures { result ≡ sum (byte s.now) k }
{
    let mut sum = 0u8;
    for i in 0..k {
        sum = sum.wrapping_add(byte_at(s, i));
    }
    sum
}

fn ending_at(s: &[u8], i: usize) -> usize
    requires { i ≤ 1000 }
    ensures { result ≡ ending s.now i }
{
    let c = char_at(s, i);
    if c == b'\n' {
        return 1;
    }
    let next = char_at(s, i + 1);
    if (c == b'\r') & (next == b'\n') {
        return 2;
    }
    0
}

#[tactic(auto, unfolding(hex_form::specs::Line::width))]
fn width_of(s: &[u8]) -> usize
    ensures { result ≡ width s.now }
{
    2 * size_of(s) as usize + 11
}

// The line with its end.
#[tactic(auto, unfolding(hex_form::specs::Line::span))]
pub fn span_of(s: &[u8]) -> usize
    ensures { result ≡ span s.now }
{
    let w = width_of(s);
    w + ending_at(s, w)
}

fn is_taken(k: u8, o: u16, n: u8) -> bool
    ensures { result ≡ taken k o n }
{
    if k == 0 {
        return true;
    }
    if o != 0 {
        return false;
    }
    if k == 1 {
        return n == 0;
    }
    (k == 2) & (n == 2)
}

// A colon, digits, and the line's end behind them.
#[tactic(auto, unfolding(hex_form::specs::Line::written))]
fn is_written(s: &[u8]) -> bool
    ensures { result ≡ written s.now }
{
    let begins = char_at(s, 0) == b':';
    let digits = digits_to(s, 2 * size_of(s) as usize + 10);
    let ends = 0 < ending_at(s, width_of(s));
    begins & (digits & ends)
}

#[tactic(auto, unfolding(hex_form::specs::Line::formed))]
pub fn is_formed(s: &[u8]) -> bool
    ensures { result ≡ formed s.now }
{
    is_written(s) & is_taken(kind_of(s), offset_of(s), size_of(s))
}

#[tactic(auto, unfolding(hex_form::specs::Line::summed))]
pub fn is_summed(s: &[u8]) -> bool
    ensures { result ≡ summed s.now }
{
    sum_to(s, size_of(s) as usize + 5) == 0
}
