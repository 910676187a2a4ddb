// The first bytes F0 to FF; those of them that are prefixes name no instruction.
#![tactic(auto)]

ghost use Rattle.std.specs.Prelude.{◌≤◌};
ghost use Rattle.sheet.specs.Width.{pick};
ghost use Rattle.sheet.specs.FirstByte.{group_f6, group_fe, group_ff, bytes_c0};
ghost use Rattle.code_answer.specs.Answer.{Decodes, Names};
ghost use Rattle.code_bytes.specs.Lent.{lent_code};

use code_answer::{Decoded, known};
use code_bytes::Reader;
use sheet::{Arithmetic, Branch, Control, Multiply, Refusal, Source, Stack, Unary};

fn group_f6(r: Reader, b: u8) -> Result<Decoded, Refusal>
    ensures { Decodes (group_f6 r.entry.prefixes b) (lent_code r.entry.code) r.entry.read result }
{
    let o = code_operand::operands(r);
    let word = b % 2 == 1;
    let by = o.place;
    if o.reg == 0 {
        let v = r.code.immediate(word, o.next);
        return known(
            Arithmetic::Test {
                word,
                left: o.place,
                right: Source::Immediate(v.value),
            },
            v.next,
        );
    }
    if o.reg == 1 {
        return Err(Refusal::UnknownInstruction);
    }
    if o.reg < 4 {
        let op = if o.reg == 2 { Unary::Not } else { Unary::Neg };
        return known(
            Arithmetic::One {
                op,
                word,
                to: o.place,
            },
            o.next,
        );
    }
    let group = match o.reg {
        4 => Multiply::Mulu { word, by },
        5 => Multiply::Mul { word, by },
        6 => Multiply::Divu { word, by },
        _ => Multiply::Div { word, by },
    };
    known(group, o.next)
}

// FE has the first two rows of FF, for bytes.
fn group_fe(r: Reader, word: bool) -> Result<Decoded, Refusal>
    ensures { Decodes (pick word (group_ff r.entry.prefixes) (group_fe r.entry.prefixes)) (lent_code r.entry.code) r.entry.read result }
{
    let o = code_operand::operands(r);
    let to = o.place;
    if o.reg < 2 {
        let op = if o.reg == 0 { Unary::Inc } else { Unary::Dec };
        return known(Arithmetic::One { op, word, to }, o.next);
    }
    if !word {
        return Err(Refusal::UnknownInstruction);
    }
    let group = match o.reg {
        2 => Branch::CallTo { to },
        3 => Branch::CallFarAt { at: o.memory()? },
        4 => Branch::BrTo { to },
        5 => Branch::BrFarAt { at: o.memory()? },
        6 => return known(Stack::Push { from: to }, o.next),
        _ => return Err(Refusal::UnknownInstruction),
    };
    known(group, o.next)
}

pub fn codesf0(r: Reader, b: u8) -> Result<Decoded, Refusal>
    requires { 0xf0 ≤ b }
    ensures { Names (bytes_c0 r.entry.prefixes) b (lent_code r.entry.code) r.entry.read result }
{
    let group = match b {
        0xf4 => Control::Halt,
        0xf5 => Control::NotCy,
        0xf6 | 0xf7 => return group_f6(r, b),
        0xf8 => Control::ClrCy,
        0xf9 => Control::SetCy,
        0xfa => Control::Di,
        0xfb => Control::Ei,
        0xfc => Control::ClrDir,
        0xfd => Control::SetDir,
        0xfe | 0xff => return group_fe(r, b == 0xff),
        _ => return Err(Refusal::UnknownInstruction),
    };
    known(group, r.read)
}
