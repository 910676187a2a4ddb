// Results of bytes with the flags of the uPD8080AF: sums, differences, bitwise results, DAA, rotates. V stays.
// No function here has a precondition.
#![tactic(auto)]

ghost use Rattle.std.specs.Prelude.{◌≡◌, true, false};
ghost use Rattle.sheet.specs.Psw as sheet;
ghost use Rattle.sheet.specs.Psw.{flag_of, becomes, blank};
ghost use Rattle.sheet.specs.Arithmetic.{resulting, added, carry};
ghost use Rattle.sheet.specs.Shift.{turn, one_place, rotated};
ghost use Rattle.sheet.specs.CardArithmetic.{masked, bitwise, daa_result};
ghost use Rattle.sheet.specs.Contract.{flagged};
ghost use Rattle.calc_8080.specs.CardOperate.{card_operated, card_half_carry, card_counted, card_stepped};

use calc_flags::{AC, CY, V, flag};
use calc_psw::Outcome;
use sheet::{Digits, Flagged, Operation, Shift, Turn, Way};

// A byte with AC and CY as given; P, S and Z are by the byte, and V stays.
fn concluded(d: Digits, psw: u16) -> Flagged
    ensures { result ≡ flagged (resulting false d.value (becomes d.ac) (becomes d.cy) (becomes (flag_of psw sheet.OV))) psw }
{
    let t = Outcome {
        value: d.value,
        ac: d.ac,
        cy: d.cy,
        v: flag::<V>(psw),
    };
    calc_psw::result(false, t, psw)
}

// AC as the uPD8080AF has it: the carry out of bit 3, which a subtraction has where it borrows nothing.
#[tactic(auto, unfolding(crate::specs::CardOperate::card_half_carry))]
fn half_carry(way: Way, ac: bool) -> bool
    ensures { result ≡ card_half_carry way ac }
{
    match way {
        Way::Addition => ac,
        Way::Subtraction => !ac,
    }
}

// ADD and ADC, or SUB, SBB and CMP.
fn counted(way: Way, a: u16, b: u16, c: bool, psw: u16) -> Flagged
    ensures { result ≡ flagged (card_counted way a b c) psw }
{
    let d = calc_decimal::plain(way, a, b, c);
    let t = Digits {
        ac: half_carry(way, d.ac),
        ..d
    };
    concluded(t, psw)
}

// ANA.
#[tactic(auto, unfolding(sheet::specs::CardArithmetic::masked, sheet::specs::Arithmetic::logical, sheet::specs::CardArithmetic::with_ac, sheet::specs::Arithmetic::resulting, sheet::specs::Psw::settled, sheet::specs::Contract::flagged))]
fn masked(a: u16, b: u16, psw: u16) -> Flagged
    ensures { result ≡ flagged (masked a b) psw }
{
    let half = (a / 8 % 2 == 1) | (b / 8 % 2 == 1);
    let t = Digits {
        value: a & b,
        ac: half,
        cy: false,
    };
    concluded(t, psw)
}

// XRA and ORA, of their bitwise result x.
#[tactic(auto, unfolding(sheet::specs::CardArithmetic::bitwise, sheet::specs::Arithmetic::logical, sheet::specs::CardArithmetic::with_ac, sheet::specs::Arithmetic::resulting, sheet::specs::Psw::settled, sheet::specs::Contract::flagged))]
fn bitwise(x: u16, psw: u16) -> Flagged
    ensures { result ≡ flagged (bitwise x) psw }
{
    let t = Digits {
        value: x,
        ac: false,
        cy: false,
    };
    concluded(t, psw)
}

// One of the eight operations with AL.
#[tactic(auto, unfolding(crate::specs::CardOperate::card_operated, crate::specs::CardOperate::card_counted))]
pub fn operate(op: Operation, a: u16, b: u16, psw: u16) -> Flagged
    ensures { result ≡ flagged (card_operated op a b (flag_of psw sheet.CY)) psw }
{
    match op {
        Operation::Add => counted(Way::Addition, a, b, false, psw),
        Operation::Or => bitwise(a | b, psw),
        Operation::Addc => counted(Way::Addition, a, b, flag::<CY>(psw), psw),
        Operation::Subc => counted(Way::Subtraction, a, b, flag::<CY>(psw), psw),
        Operation::And => masked(a, b, psw),
        Operation::Sub => counted(Way::Subtraction, a, b, false, psw),
        Operation::Xor => bitwise(a ^ b, psw),
        Operation::Cmp => counted(Way::Subtraction, a, b, false, psw),
    }
}

// INR or DCR keeps CY.
pub fn stepped(way: Way, a: u16, psw: u16) -> Flagged
    ensures { result ≡ flagged (card_stepped way a) psw }
{
    let d = calc_decimal::plain(way, a, 1, false);
    let t = Digits {
        ac: half_carry(way, d.ac),
        cy: flag::<CY>(psw),
        ..d
    };
    concluded(t, psw)
}

#[tactic(auto, unfolding(sheet::specs::CardArithmetic::daa_result, sheet::specs::Adjust::packed_result, sheet::specs::CardArithmetic::with_ac, sheet::specs::Arithmetic::resulting, sheet::specs::Psw::settled, sheet::specs::Contract::flagged))]
pub fn daa(al: u16, psw: u16) -> Flagged
    ensures { result ≡ flagged (daa_result al (flag_of psw sheet.AC) (flag_of psw sheet.CY)) psw }
{
    let d = calc_decimal::adjusted(Way::Addition, al, flag::<AC>(psw), flag::<CY>(psw));
    let t = Digits {
        ac: 9 < al % 16,
        ..d
    };
    concluded(t, psw)
}

// RLC, RRC, RAL, RAR of x change CY alone.
pub fn rotate(kind: Shift, x: u16, cy: bool, psw: u16) -> Flagged
    ensures { result ≡ flagged (rotated (one_place kind false (turn x cy)) blank) psw }
{
    let s = calc_shift::shift_one(kind, false, x, cy, psw);
    Flagged {
        psw: calc_psw::with_cy(flag::<CY>(s.psw), psw),
        ..s
    }
}

// A sum of words and what it carries, as DAD has them.
pub fn sum16(x: u16, y: u16) -> Turn
    ensures { result ≡ turn (added true x y false) (carry true x y false) }
{
    let total = x as u32 + y as u32;
    Turn {
        value: (total % 65536) as u16,
        cy: 65536 <= total,
    }
}
