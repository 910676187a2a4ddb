// Packed decimal: a byte adjusted, one byte of ADD4S, SUB4S and CMP4S, the digits of ROL4 and ROR4. No function here has a precondition.
#![tactic(auto)]

ghost use Rattle.std.specs.Prelude.{◌≡◌, ◌+◌, ◌*◌, ◌/◌, ◌%◌, ◌≤◌};
ghost use Rattle.sheet.specs.Width.{add16};
ghost use Rattle.sheet.specs.Adjust.{adjusted, digits_of, plain};
ghost use Rattle.sheet.specs.Decimal.{digits};

use calc_word::{digit, only};
use sheet::{Digits, Way};

// a plus b and a carry, or a minus b and a borrow, with AC and CY of that. The bound serves the sums that the value goes into.
#[tactic(auto, unfolding(sheet::specs::Adjust::plain, sheet::specs::Width::wrap_of))]
pub fn plain(way: Way, a: u16, b: u16, c: bool) -> Digits
    ensures { (result ≡ plain way a b c) × (result.value ≤ 255) }
{
    let d = digit(c) as u32;
    let low = a as u32 % 16;
    let more = b as u32 % 16 + d;
    match way {
        Way::Addition => {
            let sum = a as u32 + b as u32 + d;
            Digits {
                value: (sum % 256) as u16,
                ac: 16 <= low + b as u32 % 16 + d,
                cy: 256 <= sum,
            }
        }
        Way::Subtraction => {
            let taken = b as u32 + d;
            Digits {
                value: ((131072 + a as u32 - taken) % 256) as u16,
                ac: low < more,
                cy: (a as u32) < taken,
            }
        }
    }
}

// A byte after the two steps of an adjustment.
#[tactic(auto, unfolding(sheet::specs::Adjust::low_adjusted, sheet::specs::Adjust::high_adjusted, sheet::specs::Adjust::adjusted))]
pub fn adjusted(way: Way, x: u16, ac: bool, cy: bool) -> Digits
    ensures { result ≡ adjusted way (digits_of x ac cy) }
{
    let low = (9 < x % 16) | ac;
    let y = plain(way, x, only(low, 6), false);
    let high = (0x9f < y.value) | (cy | y.cy);
    let z = plain(way, y.value, only(high, 0x60), false);
    Digits {
        ac: low,
        cy: high,
        ..z
    }
}

// One byte of ADD4S, or of SUB4S and CMP4S.
#[tactic(auto, unfolding(sheet::specs::Decimal::digits))]
pub fn digits(way: Way, a: u16, b: u16, c: bool) -> Digits
    ensures { result ≡ digits way a b c }
{
    let d = plain(way, a, b, c);
    adjusted(way, d.value, d.ac, d.cy)
}

// The operand of ROL4: its low digit goes up, that of AL comes in.
pub fn rol4(x: u16, al: u16) -> u16
    ensures { result ≡ x % 16 * 16 + al % 16 }
{
    x % 16 * 16 + al % 16
}

// AL after ROL4: its high digit is kept. The sum wraps for no byte x.
pub fn rol4_al(x: u16, al: u16) -> u16
    ensures { result ≡ add16 (al / 16 * 16) (x / 16) }
{
    calc_word::plus16(al / 16 * 16, x / 16)
}

// The operand of ROR4: its high digit goes down, the low digit of AL comes in.
pub fn ror4(x: u16, al: u16) -> u16
    ensures { result ≡ al % 16 * 16 + x / 16 }
{
    al % 16 * 16 + x / 16
}

// AL after ROR4.
pub fn ror4_al(x: u16, al: u16) -> u16
    ensures { result ≡ al / 16 * 16 + x % 16 }
{
    al / 16 * 16 + x % 16
}
