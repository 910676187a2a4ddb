// The second bytes after 0F: bits, decimal strings and digits, bit fields, BRKEM.
#![tactic(auto)]

ghost use Rattle.std.specs.Prelude.{◌≤◌, ◌<◌};
ghost use Rattle.sheet.specs.Groups.{Decimals};
ghost use Rattle.sheet.specs.declared.Decimal.TheVariants.{Rol4, Ror4};
ghost use Rattle.sheet.specs.Width.{pick};
ghost use Rattle.sheet.specs.Reading.{got};
ghost use Rattle.sheet.specs.SecondByte.{with_plain, field_in_register, field_given, break_for_emulation, second_bytes};
ghost use Rattle.code_answer.specs.Answer.{Decodes, Names};
ghost use Rattle.code_bytes.specs.Lent.{lent_code};
ghost use Rattle.code_0f.specs.Fields.{field_of};

use code_answer::{DS0, Decoded, known};
use code_bytes::Reader;
use sheet::{Amount, Bit, Compute, Decimal, Field, Length, Mode, Refusal};

// 10 to 1F: one bit of a place, whose number is in CL or follows.
fn bits(r: Reader, b: u8) -> Result<Decoded, Refusal>
    requires { (0x10 ≤ b) × (b < 0x20) }
    ensures { Names (second_bytes r.entry.prefixes) b (lent_code r.entry.code) r.entry.read result }
{
    let o = code_operand::operands(r);
    let to = o.plain()?;
    let word = b % 2 == 1;
    let op = match b / 2 % 4 {
        0 => Bit::Test1,
        1 => Bit::Clr1,
        2 => Bit::Set1,
        _ => Bit::Not1,
    };
    if b < 0x18 {
        let number = Amount::InCl;
        return known(
            Compute::Bits {
                op,
                word,
                to,
                number,
            },
            o.next,
        );
    }
    let number = Amount::Given(r.code.byte(o.next));
    known(
        Compute::Bits {
            op,
            word,
            to,
            number,
        },
        o.next + 1,
    )
}

// ROL4 and ROR4.
fn rotated(r: Reader, left: bool) -> Result<Decoded, Refusal>
    ensures { Decodes (with_plain r.entry.prefixes (λ to. Decimals (pick left (Rol4 to) (Ror4 to)))) (lent_code r.entry.code) r.entry.read result }
{
    let o = code_operand::operands(r);
    let to = o.plain()?;
    let group = if left {
        Decimal::Rol4 { to }
    } else {
        Decimal::Ror4 { to }
    };
    known(Compute::Decimals(group), o.next)
}

// EXT and INS: a byte 11 reg' reg, or 11 000 reg and the length.
fn field(r: Reader, ext: bool, given: bool, seg: u8) -> Result<Decoded, Refusal>
    ensures { Decodes
        (pick given (field_given (λ o l. got (field_of ext seg o l))) (field_in_register (λ o l. got (field_of ext seg o l))))
        (lent_code r.entry.code) r.entry.read result }
{
    let m = r.byte();
    if m / 64 != 3 {
        return Err(Refusal::UnknownInstruction);
    }
    let length = if given {
        if m / 8 != 24 {
            return Err(Refusal::UnknownInstruction);
        }
        Length::Given(r.code.byte(r.read + 1))
    } else {
        Length::InRegister(m / 8 % 8)
    };
    let next = if given { r.read + 2 } else { r.read + 1 };
    let offset = m % 8;
    let group = if ext {
        Field::Ext {
            seg,
            offset,
            length,
        }
    } else {
        Field::Ins { offset, length }
    };
    known(Compute::Fields(group), next)
}

// FF: BRKEM.
fn emulation(r: Reader) -> Result<Decoded, Refusal>
    ensures { Decodes break_for_emulation (lent_code r.entry.code) r.entry.read result }
{
    let vector = r.byte();
    known(Mode::Brkem { vector }, r.read + 1)
}

pub fn codes0f(r: Reader, b: u8) -> Result<Decoded, Refusal>
    ensures { Names (second_bytes r.entry.prefixes) b (lent_code r.entry.code) r.entry.read result }
{
    if b < 0x10 {
        return Err(Refusal::UnknownInstruction);
    }
    if b < 0x20 {
        return bits(r, b);
    }
    let seg = r.prefixes.seg.unwrap_or(DS0);
    let group = match b {
        0x20 => Decimal::Add4s { seg },
        0x22 => Decimal::Sub4s { seg },
        0x26 => Decimal::Cmp4s { seg },
        0x28 | 0x2a => return rotated(r, b == 0x28),
        0x31 | 0x33 => return field(r, b == 0x33, false, seg),
        0x39 | 0x3b => return field(r, b == 0x3b, true, seg),
        0xff => return emulation(r),
        _ => return Err(Refusal::UnknownInstruction),
    };
    known(Compute::Decimals(group), r.read)
}
