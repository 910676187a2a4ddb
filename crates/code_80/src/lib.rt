// The first bytes 80 to 8F.
#![tactic(auto)]

ghost use Rattle.std.specs.Prelude.{ℕ, ◌≤◌, ◌<◌};
ghost use Rattle.sheet.specs.Groups.{Transfers, Stacks};
ghost use Rattle.sheet.specs.declared.Transfer.TheVariants.{Ldea};
ghost use Rattle.sheet.specs.declared.Stack.TheVariants.{Pop};
ghost use Rattle.sheet.specs.Width.{pick};
ghost use Rattle.sheet.specs.SecondByte.{with_plain};
ghost use Rattle.sheet.specs.FirstByte.{small_immediate, with_immediate, with_memory, from_segment, to_segment, bytes80};
ghost use Rattle.code_answer.specs.Answer.{Takes, Decodes, Names};
ghost use Rattle.code_bytes.specs.Lent.{lent_code};

use code_answer::{Decoded, PS, known};
use code_bytes::{Code, NumberRead, Reader};
use sheet::{Arithmetic, Place, Refusal, Source, Stack, Transfer};

// The immediate of 80 to 83.
fn small_immediate(code: Code, b: u8, i: u16) -> NumberRead
    requires { i ≤ 8 }
    ensures { Takes ℕ (small_immediate b) (lent_code code.entry) i result.value result.next 2 }
{
    match b {
        0x81 => NumberRead {
            value: code.word(i),
            next: i + 2,
        },
        0x83 => NumberRead {
            value: code.short(i),
            next: i + 1,
        },
        _ => NumberRead {
            value: code.byte(i) as u16,
            next: i + 1,
        },
    }
}

fn with_immediate(r: Reader, b: u8) -> Result<Decoded, Refusal>
    ensures { Decodes (with_immediate r.entry.prefixes b) (lent_code r.entry.code) r.entry.read result }
{
    let o = code_operand::operands(r);
    let v = small_immediate(r.code, b, o.next);
    known(
        Arithmetic::Two {
            op: o.operation(),
            word: b % 2 == 1,
            to: o.place,
            from: Source::Immediate(v.value),
        },
        v.next,
    )
}

// 84 to 8B: a register and a place.
fn two_places(r: Reader, b: u8) -> Result<Decoded, Refusal>
    requires { (0x84 ≤ b) × (b < 0x8c) }
    ensures { Names (bytes80 r.entry.prefixes) b (lent_code r.entry.code) r.entry.read result }
{
    let o = code_operand::operands(r);
    let word = b % 2 == 1;
    if b < 0x86 {
        return known(
            Arithmetic::Test {
                word,
                left: o.place,
                right: Source::Held(Place::Register(o.reg)),
            },
            o.next,
        );
    }
    let group = match b / 2 {
        0x43 => Transfer::Xch {
            word,
            reg: o.reg,
            with: o.place,
        },
        0x44 => Transfer::Mov {
            word,
            to: o.place,
            from: Source::Held(Place::Register(o.reg)),
        },
        _ => Transfer::Mov {
            word,
            to: Place::Register(o.reg),
            from: Source::Held(o.place),
        },
    };
    known(group, o.next)
}

// 8C and 8E: PS is not loaded.
fn with_segment(r: Reader, load: bool) -> Result<Decoded, Refusal>
    ensures { Decodes (pick load (to_segment r.entry.prefixes) (from_segment r.entry.prefixes)) (lent_code r.entry.code) r.entry.read result }
{
    let o = code_operand::operands(r);
    let seg = o.reg;
    if 4 <= seg {
        return Err(Refusal::UnknownInstruction);
    }
    let group = if load {
        if seg == PS {
            return Err(Refusal::UnknownInstruction);
        }
        Transfer::ToSegment { seg, from: o.place }
    } else {
        Transfer::FromSegment { to: o.place, seg }
    };
    known(group, o.next)
}

fn ldea(r: Reader) -> Result<Decoded, Refusal>
    ensures { Decodes (with_memory r.entry.prefixes (λ reg a. Transfers (Ldea reg a))) (lent_code r.entry.code) r.entry.read result }
{
    let o = code_operand::operands(r);
    let from = o.memory()?;
    known(Transfer::Ldea { reg: o.reg, from }, o.next)
}

fn pop(r: Reader) -> Result<Decoded, Refusal>
    ensures { Decodes (with_plain r.entry.prefixes (λ a. Stacks (Pop a))) (lent_code r.entry.code) r.entry.read result }
{
    let o = code_operand::operands(r);
    let to = o.plain()?;
    known(Stack::Pop { to }, o.next)
}

pub fn codes80(r: Reader, b: u8) -> Result<Decoded, Refusal>
    requires { (0x80 ≤ b) × (b < 0x90) }
    ensures { Names (bytes80 r.entry.prefixes) b (lent_code r.entry.code) r.entry.read result }
{
    if b < 0x84 {
        return with_immediate(r, b);
    }
    if b < 0x8c {
        return two_places(r, b);
    }
    match b {
        0x8d => ldea(r),
        0x8f => pop(r),
        _ => with_segment(r, b == 0x8e),
    }
}
