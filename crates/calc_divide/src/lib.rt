// Quotients and remainders of DIVU and DIV at either width, or the trap to vector 0. No public function has a precondition.
#![tactic(auto)]

ghost use Rattle.std.specs.Prelude.{◌≡◌, ◌≤◌, ◌<◌, pos};
ghost use Rattle.std.specs.Int.Signed.{mag, quot_z, rem_z};
ghost use Rattle.sheet.specs.Multiply.{bits_of, quoted, signed_quotient, span_of, stands, unsigned_quotient};

use calc_signed::{low_bits, signed};
use sheet::Quotient;

// DIVU.
#[tactic(auto, unfolding(sheet::specs::Multiply::unsigned_quotient))]
pub fn unsigned_quotient(word: bool, a: u32, b: u16) -> Option<Quotient>
    ensures { result ≡ unsigned_quotient word a b }
{
    let k = calc_word::wrap(word, b as u32) as u32;
    if k == 0 {
        return None;
    }
    if a / k < calc_word::modulus(word) {
        Some(Quotient {
            quotient: (a / k) as u16,
            remainder: (a % k) as u16,
        })
    } else {
        None
    }
}

// The quotient, truncated toward zero.
fn quotient(n: i64, d: i64) -> i64
    requires { (mag n < 1099511627776) × (d ≡ pos 0 → ⊥) }
    ensures { result ≡ quot_z n d }
{
    n / d
}

// The remainder, with the sign of n.
fn remainder(n: i64, d: i64) -> i64
    requires { (mag n < 1099511627776) × (d ≡ pos 0 → ⊥) }
    ensures { result ≡ rem_z n d }
{
    n % d
}

// The quotients that stand: -8000h does not.
#[tactic(auto, unfolding(sheet::specs::Multiply::stands))]
fn stands(word: bool, q: i64) -> bool
    ensures { result ≡ stands word q }
{
    let h = calc_word::half(word);
    (-(h as i64) < q) & (q < h as i64)
}

// The bits of a number at the width.
#[tactic(auto, unfolding(sheet::specs::Multiply::bits_of))]
fn bits(word: bool, z: i64) -> u16
    ensures { result ≡ bits_of word z }
{
    calc_word::wrap(word, low_bits(z))
}

// The quotient, if it stands, and the remainder.
#[tactic(auto, unfolding(sheet::specs::Multiply::quoted))]
fn quoted(word: bool, n: i64, d: i64) -> Option<Quotient>
    requires { (mag n < 1099511627776) × (d ≡ pos 0 → ⊥) }
    ensures { result ≡ quoted word n d }
{
    let q = quotient(n, d);
    if stands(word, q) {
        Some(Quotient {
            quotient: bits(word, q),
            remainder: bits(word, remainder(n, d)),
        })
    } else {
        None
    }
}

// Half of all dividends.
fn span(word: bool) -> u32
    ensures { (result ≡ span_of word) × (result ≤ 2147483648) }
{
    if word { 2147483648 } else { 32768 }
}

// DIV.
pub fn signed_quotient(word: bool, a: u32, b: u16) -> Option<Quotient>
    ensures { result ≡ signed_quotient word a b }
{
    let k = calc_word::wrap(word, b as u32);
    if k == 0 {
        return None;
    }
    let d = signed(calc_word::half(word) as u32, k as u32);
    quoted(word, signed(span(word), a), d)
}
