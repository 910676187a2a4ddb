// The first bytes C0 to FF of the 8080 mode, by their fields of three and three bits.
#![tactic(auto)]

ghost use Rattle.std.specs.Prelude.{◌≤◌};
ghost use Rattle.sheet.specs.CardCodes.{cards11};
ghost use Rattle.code_answer.specs.Answer.{Decodes};
ghost use Rattle.code_bytes.specs.Lent.{lent_code};

use code_8080_answer::{condition_at, operation_at};
use code_answer::{Decoded, known};
use code_bytes::Code;
use sheet::cards::{Card, CardArithmetic, CardBranch, CardMode, CardStack};
use sheet::{Control, Io, Place, Port, Refusal, Source, Transfer};

// 11 d 000: RNZ to RM.
fn ret_if(code: Code, d: u8) -> Result<Decoded<Card>, Refusal>
    ensures { Decodes (cards11 d 0) (lent_code code.entry) 1 result }
{
    let condition = condition_at(d);
    known(CardBranch::RetIf { condition }, 1)
}

// 11 d 010: JNZ to JM.
fn jump_if(code: Code, d: u8) -> Result<Decoded<Card>, Refusal>
    ensures { Decodes (cards11 d 2) (lent_code code.entry) 1 result }
{
    let condition = condition_at(d);
    let to = code.word(1);
    known(CardBranch::JumpIf { condition, to }, 3)
}

// 11 d 100: CNZ to CM.
fn call_if(code: Code, d: u8) -> Result<Decoded<Card>, Refusal>
    ensures { Decodes (cards11 d 4) (lent_code code.entry) 1 result }
{
    let condition = condition_at(d);
    let to = code.word(1);
    known(CardBranch::CallIf { condition, to }, 3)
}

// 11 d 001: POP, RET, PCHL, SPHL.
fn pop_or_return(code: Code, d: u8) -> Result<Decoded<Card>, Refusal>
    requires { d ≤ 7 }
    ensures { Decodes (cards11 d 1) (lent_code code.entry) 1 result }
{
    match d {
        0 => known(CardStack::Pop { pair: 1 }, 1),
        1 => known(CardBranch::Ret, 1),
        2 => known(CardStack::Pop { pair: 2 }, 1),
        3 => Err(Refusal::UnknownInstruction),
        4 => known(CardStack::Pop { pair: 3 }, 1),
        5 => known(CardBranch::Pchl, 1),
        6 => known(CardStack::PopPsw, 1),
        _ => known(
            Transfer::Mov {
                word: true,
                to: Place::Register(5),
                from: Source::Held(Place::Register(3)),
            },
            1,
        ),
    }
}

// 11 d 011: JMP, OUT, IN, XTHL, XCHG, DI, EI.
fn jump_or_port(code: Code, d: u8) -> Result<Decoded<Card>, Refusal>
    requires { d ≤ 7 }
    ensures { Decodes (cards11 d 3) (lent_code code.entry) 1 result }
{
    match d {
        0 => known(CardBranch::Jmp { to: code.word(1) }, 3),
        1 => Err(Refusal::UnknownInstruction),
        2 => known(
            Io::Out {
                word: false,
                port: Port::Numbered(code.byte(1)),
            },
            2,
        ),
        3 => known(
            Io::In {
                word: false,
                port: Port::Numbered(code.byte(1)),
            },
            2,
        ),
        4 => known(CardStack::Xthl, 1),
        5 => known(
            Transfer::Xch {
                word: true,
                reg: 2,
                with: Place::Register(3),
            },
            1,
        ),
        6 => known(Control::Di, 1),
        _ => known(Control::Ei, 1),
    }
}

// ED: CALLN and RETEM.
fn after_ed(code: Code) -> Result<Decoded<Card>, Refusal>
    ensures { Decodes (cards11 5 5) (lent_code code.entry) 1 result }
{
    match code.byte(1) {
        0xed => {
            let vector = code.byte(2);
            known(CardMode::Calln { vector }, 3)
        }
        0xfd => known(CardMode::Retem, 2),
        _ => Err(Refusal::UnknownInstruction),
    }
}

// 11 d 101: PUSH, CALL, ED.
fn push_or_call(code: Code, d: u8) -> Result<Decoded<Card>, Refusal>
    requires { d ≤ 7 }
    ensures { Decodes (cards11 d 5) (lent_code code.entry) 1 result }
{
    match d {
        0 => known(CardStack::Push { pair: 1 }, 1),
        1 => known(CardBranch::Call { to: code.word(1) }, 3),
        2 => known(CardStack::Push { pair: 2 }, 1),
        4 => known(CardStack::Push { pair: 3 }, 1),
        5 => after_ed(code),
        6 => known(CardStack::PushPsw, 1),
        _ => Err(Refusal::UnknownInstruction),
    }
}

// 11 d 110: ADI to CPI.
fn immediate(code: Code, d: u8) -> Result<Decoded<Card>, Refusal>
    ensures { Decodes (cards11 d 6) (lent_code code.entry) 1 result }
{
    known(
        CardArithmetic::Two {
            op: operation_at(d),
            from: Source::Immediate(code.byte(1) as u16),
        },
        2,
    )
}

// 11 d l; 11 d 111 is RST.
pub fn cards11(code: Code, d: u8, l: u8) -> Result<Decoded<Card>, Refusal>
    requires { (d ≤ 7) × (l ≤ 7) }
    ensures { Decodes (cards11 d l) (lent_code code.entry) 1 result }
{
    match l {
        0 => ret_if(code, d),
        1 => pop_or_return(code, d),
        2 => jump_if(code, d),
        3 => jump_or_port(code, d),
        4 => call_if(code, d),
        5 => push_or_call(code, d),
        6 => immediate(code, d),
        _ => known(CardBranch::Rst { number: d }, 1),
    }
}
