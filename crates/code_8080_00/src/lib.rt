// The first bytes 00 to BF of the 8080 mode, by their fields of two, three and three bits.
#![tactic(auto)]

ghost use Rattle.std.specs.Prelude.{◌≤◌};
ghost use Rattle.sheet.specs.CardCodes.{cards00, cards01, cards10};
ghost use Rattle.code_answer.specs.Answer.{Decodes};
ghost use Rattle.code_bytes.specs.Lent.{lent_code};

use code_8080_answer::{operand_at, operation_at, pair_at};
use code_answer::{DS0, Decoded, known};
use code_bytes::Code;
use sheet::cards::{Card, CardArithmetic, CardPoint};
use sheet::{Address, Control, Place, Refusal, Shift, Source, Transfer};

// 00 d 000: NOP.
fn nop(code: Code, d: u8) -> Result<Decoded<Card>, Refusal>
    ensures { Decodes (cards00 d 0) (lent_code code.entry) 1 result }
{
    if d == 0 {
        known(Control::Nop, 1)
    } else {
        Err(Refusal::UnknownInstruction)
    }
}

// 00 d 001: LXI and DAD.
fn lxi_or_dad(code: Code, d: u8) -> Result<Decoded<Card>, Refusal>
    ensures { Decodes (cards00 d 1) (lent_code code.entry) 1 result }
{
    let pair = pair_at(d / 2);
    if d % 2 == 1 {
        return known(CardArithmetic::Dad { pair }, 1);
    }
    known(
        Transfer::Mov {
            word: true,
            to: Place::Register(pair),
            from: Source::Immediate(code.word(1)),
        },
        3,
    )
}

// 00 d 010, d up to 3: STAX and LDAX.
fn points(code: Code, d: u8) -> Result<Decoded<Card>, Refusal>
    requires { d ≤ 3 }
    ensures { Decodes (cards00 d 2) (lent_code code.entry) 1 result }
{
    match d {
        0 => known(CardPoint::Stax { pair: 1 }, 1),
        1 => known(CardPoint::Ldax { pair: 1 }, 1),
        2 => known(CardPoint::Stax { pair: 2 }, 1),
        _ => known(CardPoint::Ldax { pair: 2 }, 1),
    }
}

// 00 d 010: those, and SHLD, LHLD, STA, LDA.
fn load_or_store(code: Code, d: u8) -> Result<Decoded<Card>, Refusal>
    requires { d ≤ 7 }
    ensures { Decodes (cards00 d 2) (lent_code code.entry) 1 result }
{
    if d < 4 {
        return points(code, d);
    }
    let there = Address::Direct {
        seg: DS0,
        offset: code.word(1),
    };
    let group = match d {
        4 => Transfer::Mov {
            word: true,
            to: Place::Memory(there),
            from: Source::Held(Place::Register(3)),
        },
        5 => Transfer::Mov {
            word: true,
            to: Place::Register(3),
            from: Source::Held(Place::Memory(there)),
        },
        6 => Transfer::StoreAcc {
            word: false,
            to: there,
        },
        _ => Transfer::LoadAcc {
            word: false,
            from: there,
        },
    };
    known(group, 3)
}

// 00 d 011: INX and DCX.
fn inx_or_dcx(code: Code, d: u8) -> Result<Decoded<Card>, Refusal>
    ensures { Decodes (cards00 d 3) (lent_code code.entry) 1 result }
{
    let pair = pair_at(d / 2);
    if d % 2 == 1 {
        known(CardArithmetic::Dcx { pair }, 1)
    } else {
        known(CardArithmetic::Inx { pair }, 1)
    }
}

// 00 d 100: INR.
fn inr(code: Code, d: u8) -> Result<Decoded<Card>, Refusal>
    ensures { Decodes (cards00 d 4) (lent_code code.entry) 1 result }
{
    known(CardArithmetic::Inr { to: operand_at(d) }, 1)
}

// 00 d 101: DCR.
fn dcr(code: Code, d: u8) -> Result<Decoded<Card>, Refusal>
    ensures { Decodes (cards00 d 5) (lent_code code.entry) 1 result }
{
    known(CardArithmetic::Dcr { to: operand_at(d) }, 1)
}

// 00 d 110: MVI.
fn mvi(code: Code, d: u8) -> Result<Decoded<Card>, Refusal>
    ensures { Decodes (cards00 d 6) (lent_code code.entry) 1 result }
{
    known(
        Transfer::Mov {
            word: false,
            to: operand_at(d),
            from: Source::Immediate(code.byte(1) as u16),
        },
        2,
    )
}

// 00 d 111: the rotates, DAA, CMA, STC, CMC.
fn on_al_or_cy(code: Code, d: u8) -> Result<Decoded<Card>, Refusal>
    requires { d ≤ 7 }
    ensures { Decodes (cards00 d 7) (lent_code code.entry) 1 result }
{
    match d {
        0 => known(CardArithmetic::Rotate { kind: Shift::Rol }, 1),
        1 => known(CardArithmetic::Rotate { kind: Shift::Ror }, 1),
        2 => known(CardArithmetic::Rotate { kind: Shift::Rolc }, 1),
        3 => known(CardArithmetic::Rotate { kind: Shift::Rorc }, 1),
        4 => known(CardArithmetic::Daa, 1),
        5 => known(CardArithmetic::Cma, 1),
        6 => known(Control::SetCy, 1),
        _ => known(Control::NotCy, 1),
    }
}

// 00 d l.
pub fn cards00(code: Code, d: u8, l: u8) -> Result<Decoded<Card>, Refusal>
    requires { (d ≤ 7) × (l ≤ 7) }
    ensures { Decodes (cards00 d l) (lent_code code.entry) 1 result }
{
    match l {
        0 => nop(code, d),
        1 => lxi_or_dad(code, d),
        2 => load_or_store(code, d),
        3 => inx_or_dcx(code, d),
        4 => inr(code, d),
        5 => dcr(code, d),
        6 => mvi(code, d),
        _ => on_al_or_cy(code, d),
    }
}

// 01 d s: MOV, and HLT in the place of MOV M,M.
pub fn cards01(code: Code, d: u8, s: u8) -> Result<Decoded<Card>, Refusal>
    ensures { Decodes (cards01 d s) (lent_code code.entry) 1 result }
{
    if d == 6 && s == 6 {
        return known(Control::Halt, 1);
    }
    known(
        Transfer::Mov {
            word: false,
            to: operand_at(d),
            from: Source::Held(operand_at(s)),
        },
        1,
    )
}

// 10 d s: ADD to CMP.
pub fn cards10(code: Code, d: u8, s: u8) -> Result<Decoded<Card>, Refusal>
    ensures { Decodes (cards10 d s) (lent_code code.entry) 1 result }
{
    known(
        CardArithmetic::Two {
            op: operation_at(d),
            from: Source::Held(operand_at(s)),
        },
        1,
    )
}
