// Addition, subtraction, the bitwise operations, INC, DEC, NOT and NEG, at either width and with all flags.
// No function here has a precondition.
#![tactic(auto)]

ghost use Rattle.std.specs.Prelude.{◌≡◌, false};
ghost use Rattle.sheet.specs.Psw as sheet;
ghost use Rattle.sheet.specs.Psw.{flag_of, becomes};
ghost use Rattle.sheet.specs.Arithmetic.{resulting, sum, difference, logical, unary};
ghost use Rattle.sheet.specs.declared.Unary.TheVariants.{Inc, Dec, Not};
ghost use Rattle.sheet.specs.Contract.{flagged};
ghost use Rattle.calc_arith.specs.Operate.{operated};

use calc_flags::{AC, CY, flag};
use calc_psw::Outcome;
use calc_word::{digit, modulus, sign, wrap};
use sheet::{Flagged, Operation, Unary};

// a + b + c.
#[tactic(auto, unfolding(sheet::specs::Arithmetic::sum))]
fn plus(word: bool, a: u16, b: u16, c: bool) -> Outcome
    ensures { sum word a b c ≡ resulting word result.value (becomes result.ac) (becomes result.cy) (becomes result.v) }
{
    let d = digit(c);
    let total = a as u32 + b as u32 + d as u32;
    let value = wrap(word, total);
    let sa = sign(word, a);
    Outcome {
        value,
        ac: 16 <= a % 16 + b % 16 + d,
        cy: modulus(word) <= total,
        v: (sa == sign(word, b)) & (sign(word, value) != sa),
    }
}

// a - b - c.
#[tactic(auto, unfolding(sheet::specs::Arithmetic::difference))]
fn minus(word: bool, a: u16, b: u16, c: bool) -> Outcome
    ensures { difference word a b c ≡ resulting word result.value (becomes result.ac) (becomes result.cy) (becomes result.v) }
{
    let d = digit(c);
    let taken = b as u32 + d as u32;
    let value = wrap(word, 131072 + a as u32 - taken);
    let sb = sign(word, b);
    Outcome {
        value,
        ac: a % 16 < b % 16 + d,
        cy: (a as u32) < taken,
        v: (sign(word, a) != sb) & (sign(word, value) == sb),
    }
}

// ADD and ADDC.
fn add(word: bool, a: u16, b: u16, c: bool, psw: u16) -> Flagged
    ensures { result ≡ flagged (sum word a b c) psw }
{
    calc_psw::result(word, plus(word, a, b, c), psw)
}

// SUB, SUBC and CMP.
pub fn sub(word: bool, a: u16, b: u16, c: bool, psw: u16) -> Flagged
    ensures { result ≡ flagged (difference word a b c) psw }
{
    calc_psw::result(word, minus(word, a, b, c), psw)
}

// AND, OR, XOR and TEST, of their bitwise result x.
#[tactic(auto, unfolding(sheet::specs::Arithmetic::logical, sheet::specs::Arithmetic::resulting, sheet::specs::Psw::settled, sheet::specs::Contract::flagged))]
pub fn logic(word: bool, x: u16, psw: u16) -> Flagged
    ensures { result ≡ flagged (logical word x) psw }
{
    let t = Outcome {
        value: x,
        ac: flag::<AC>(psw),
        cy: false,
        v: false,
    };
    calc_psw::result(word, t, psw)
}

// One of the eight operations with two operands.
#[tactic(auto, unfolding(crate::specs::Operate::operated))]
pub fn operate(op: Operation, word: bool, a: u16, b: u16, psw: u16) -> Flagged
    ensures { result ≡ flagged (operated op word a b (flag_of psw sheet.CY)) psw }
{
    match op {
        Operation::Add => add(word, a, b, false, psw),
        Operation::Or => logic(word, a | b, psw),
        Operation::Addc => add(word, a, b, flag::<CY>(psw), psw),
        Operation::Subc => sub(word, a, b, flag::<CY>(psw), psw),
        Operation::And => logic(word, a & b, psw),
        Operation::Sub => sub(word, a, b, false, psw),
        Operation::Xor => logic(word, a ^ b, psw),
        Operation::Cmp => sub(word, a, b, false, psw),
    }
}

// INC keeps CY.
#[tactic(auto, unfolding(sheet::specs::Arithmetic::unary, sheet::specs::Arithmetic::sparing_cy, sheet::specs::Arithmetic::resulting, sheet::specs::Psw::settled, sheet::specs::Contract::flagged))]
fn inc(word: bool, a: u16, psw: u16) -> Flagged
    ensures { result ≡ flagged (unary Inc word a) psw }
{
    let t = Outcome {
        cy: flag::<CY>(psw),
        ..plus(word, a, 1, false)
    };
    calc_psw::result(word, t, psw)
}

// DEC keeps CY.
#[tactic(auto, unfolding(sheet::specs::Arithmetic::unary, sheet::specs::Arithmetic::sparing_cy, sheet::specs::Arithmetic::resulting, sheet::specs::Psw::settled, sheet::specs::Contract::flagged))]
fn dec(word: bool, a: u16, psw: u16) -> Flagged
    ensures { result ≡ flagged (unary Dec word a) psw }
{
    let t = Outcome {
        cy: flag::<CY>(psw),
        ..minus(word, a, 1, false)
    };
    calc_psw::result(word, t, psw)
}

// NOT keeps all flags.
#[tactic(auto, unfolding(sheet::specs::Arithmetic::unary, sheet::specs::Arithmetic::complement, sheet::specs::Psw::settled, sheet::specs::Contract::flagged))]
fn invert(word: bool, a: u16, psw: u16) -> Flagged
    ensures { result ≡ flagged (unary Not word a) psw }
{
    Flagged {
        value: wrap(word, 131071 - a as u32),
        psw: calc_psw::restore(psw, psw),
    }
}

// One of the four operations with one operand.
#[tactic(auto, unfolding(sheet::specs::Arithmetic::unary))]
pub fn one(op: Unary, word: bool, a: u16, psw: u16) -> Flagged
    ensures { result ≡ flagged (unary op word a) psw }
{
    match op {
        Unary::Inc => inc(word, a, psw),
        Unary::Dec => dec(word, a, psw),
        Unary::Not => invert(word, a, psw),
        Unary::Neg => sub(word, 0, a, false, psw),
    }
}
