// The first bytes 40 to 7F.
#![tactic(auto)]

ghost use Rattle.std.specs.Prelude.{◌≤◌, ◌<◌};
ghost use Rattle.sheet.specs.declared.Instr.TheVariants.{Multiplies, Interrupts};
ghost use Rattle.sheet.specs.declared.Multiply.TheVariants.{MulByte, MulWord};
ghost use Rattle.sheet.specs.declared.Interrupt.TheVariants.{Chkind};
ghost use Rattle.sheet.specs.Width.{pick};
ghost use Rattle.sheet.specs.FirstByte.{with_place, with_memory, with_word, with_short, bytes40};
ghost use Rattle.code_answer.specs.Answer.{Decodes, Names};
ghost use Rattle.code_bytes.specs.Lent.{lent_code};

use code_answer::{Decoded, known};
use code_bytes::Reader;
use sheet::{
    Arithmetic, Conditional, Interrupt, Multiply, Place, Primitive, Refusal, Stack, Unary,
};

fn chkind(r: Reader) -> Result<Decoded, Refusal>
    ensures { Decodes (with_memory r.entry.prefixes (λ reg a. Interrupts (Chkind reg a))) (lent_code r.entry.code) r.entry.read result }
{
    let o = code_operand::operands(r);
    let from = o.memory()?;
    known(Interrupt::Chkind { reg: o.reg, from }, o.next)
}

// By a word, or by a byte with its sign.
fn multiply(r: Reader, word: bool) -> Result<Decoded, Refusal>
    ensures { Decodes
        (with_place r.entry.prefixes (λ reg a. pick word (with_word (λ v. Multiplies (MulWord reg a v))) (with_short (λ v. Multiplies (MulByte reg a v)))))
        (lent_code r.entry.code) r.entry.read result }
{
    let o = code_operand::operands(r);
    if word {
        return known(
            Multiply::MulWord {
                reg: o.reg,
                from: o.place,
                by: r.code.word(o.next),
            },
            o.next + 2,
        );
    }
    known(
        Multiply::MulByte {
            reg: o.reg,
            from: o.place,
            by: r.code.short(o.next),
        },
        o.next + 1,
    )
}

fn codes60(r: Reader, b: u8) -> Result<Decoded, Refusal>
    requires { (0x60 ≤ b) × (b < 0x70) }
    ensures { Names (bytes40 r.entry.prefixes) b (lent_code r.entry.code) r.entry.read result }
{
    match b {
        0x60 => known(Stack::PushR, r.read),
        0x61 => known(Stack::PopR, r.read),
        0x62 => chkind(r),
        0x68 => known(Stack::PushWord { value: r.word() }, r.read + 2),
        0x69 => multiply(r, true),
        0x6a => known(Stack::PushByte { value: r.short() }, r.read + 1),
        0x6b => multiply(r, false),
        0x6c | 0x6d => code_operand::block(r, Primitive::Inm, b),
        0x6e | 0x6f => code_operand::block(r, Primitive::Outm, b),
        _ => Err(Refusal::UnknownInstruction),
    }
}

pub fn codes40(r: Reader, b: u8) -> Result<Decoded, Refusal>
    requires { (0x40 ≤ b) × (b < 0x80) }
    ensures { Names (bytes40 r.entry.prefixes) b (lent_code r.entry.code) r.entry.read result }
{
    let reg = Place::Register(b % 8);
    if b < 0x50 {
        let op = if b < 0x48 { Unary::Inc } else { Unary::Dec };
        return known(
            Arithmetic::One {
                op,
                word: true,
                to: reg,
            },
            r.read,
        );
    }
    if b < 0x60 {
        let group = if b < 0x58 {
            Stack::Push { from: reg }
        } else {
            Stack::Pop { to: reg }
        };
        return known(group, r.read);
    }
    if b < 0x70 {
        return codes60(r, b);
    }
    known(
        Conditional::If {
            condition: b % 16,
            disp: r.short(),
        },
        r.read + 1,
    )
}
