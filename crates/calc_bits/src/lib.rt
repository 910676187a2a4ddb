// One bit of an operand, for TEST1, CLR1, SET1 and NOT1. No function here has a precondition: a bit's number is cut to the operand's width.
#![tactic(auto)]

ghost use Rattle.std.specs.Prelude.{◌≡◌, ◌≤◌, ◌^◌};
ghost use Rattle.sheet.specs.Psw.{keeps, column, settled};
ghost use Rattle.sheet.specs.Bits.{bit_number, bit_at, with_bit, bit_column};

use calc_flags::Flags;
use calc_word::only;

// The low 3 bits of n for a byte, the low 4 for a word.
#[tactic(auto, unfolding(sheet::specs::Bits::bit_number))]
fn number(word: bool, n: u8) -> u8
    ensures { (result ≡ bit_number word n) × (result ≤ 15) }
{
    if word { n % 16 } else { n % 8 }
}

// The bit's power of two, with its bounds for what is divided by it.
fn weight(word: bool, n: u8) -> u16
    ensures { (result ≡ 2 ^ bit_number word n) × (1 ≤ result) × (result ≤ 32768) }
{
    1u16 << number(word, n)
}

// Bit n of x.
#[tactic(auto, unfolding(sheet::specs::Bits::bit_at))]
pub fn bit_at(word: bool, x: u16, n: u8) -> bool
    ensures { result ≡ bit_at x (bit_number word n) }
{
    x / weight(word, n) % 2 == 1
}

// x with bit n as given.
pub fn with_bit(word: bool, x: u16, n: u8, b: bool) -> u16
    ensures { result ≡ with_bit x (bit_number word n) b }
{
    let d = weight(word, n);
    let twice = 2 * d as u32;
    let wide = x as u32;
    let above = wide / twice * twice;
    (above + only(b, d) as u32 + (x % d) as u32) as u16
}

// PSW after TEST1.
#[tactic(auto, unfolding(sheet::specs::Bits::bit_column, sheet::specs::Psw::settled))]
pub fn after_test(word: bool, x: u16, n: u8, psw: u16) -> u16
    ensures { result ≡ settled keeps (column (bit_column x (bit_number word n))) psw }
{
    let f = Flags {
        cy: false,
        v: false,
        z: !bit_at(word, x, n),
        ..Flags::from(psw)
    };
    calc_psw::affect(f, psw)
}
