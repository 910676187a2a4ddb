// The first bytes 00 to 3F, by their low three bits: eight operations in six codes each, then segments, 0F and decimal adjusts.
#![tactic(auto)]

ghost use Rattle.std.specs.Prelude.{◌≡◌, ◌%◌, ◌≤◌, ◌<◌};
ghost use Rattle.sheet.specs.Reading.{got};
ghost use Rattle.sheet.specs.FirstByte.{with_place, two_places, bytes00};
ghost use Rattle.code_answer.specs.Answer.{Decodes, Names};
ghost use Rattle.code_bytes.specs.Lent.{lent_code};

use code_answer::{ACC, Decoded, known};
use code_bytes::Reader;
use sheet::{Arithmetic, Convert, Operation, Place, Refusal, Source, Stack};

// A register and a place: bit 1 of the code says which one is the destination.
fn two_places(r: Reader, op: Operation, b: u8) -> Result<Decoded, Refusal>
    ensures { Decodes (with_place r.entry.prefixes (λ reg a. got (two_places op b reg a))) (lent_code r.entry.code) r.entry.read result }
{
    let o = code_operand::operands(r);
    let reg = Place::Register(o.reg);
    let word = b % 2 == 1;
    let group = if b / 2 % 2 == 1 {
        Arithmetic::Two {
            op,
            word,
            to: reg,
            from: Source::Held(o.place),
        }
    } else {
        Arithmetic::Two {
            op,
            word,
            to: o.place,
            from: Source::Held(reg),
        }
    };
    known(group, o.next)
}

// 07, 0F, 17, .. 3F.
fn column7(r: Reader, b: u8) -> Result<Decoded, Refusal>
    requires { (b < 0x40) × ((b % 8 ≡ 7) × (r.read ≤ 4)) }
    ensures { Names (bytes00 r.entry.prefixes) b (lent_code r.entry.code) r.entry.read result }
{
    if b == 0x0f {
        let second = r.byte();
        let after = Reader {
            code: r.code,
            prefixes: r.prefixes,
            read: r.read + 1,
        };
        return code_0f::codes0f(after, second);
    }
    if b < 0x20 {
        return known(Stack::PopSegment { seg: b / 8 }, r.read);
    }
    let group = match b {
        0x27 => Convert::Adj4a,
        0x2f => Convert::Adj4s,
        0x37 => Convert::Adjba,
        _ => Convert::Adjbs,
    };
    known(group, r.read)
}

pub fn codes00(r: Reader, b: u8) -> Result<Decoded, Refusal>
    requires { (b < 0x40) × (r.read ≤ 4) }
    ensures { Names (bytes00 r.entry.prefixes) b (lent_code r.entry.code) r.entry.read result }
{
    let n = b % 8;
    if n < 6 {
        let op = code_operand::operation_at(b / 8);
        if n < 4 {
            return two_places(r, op, b);
        }
        let word = b % 2 == 1;
        let v = r.immediate(word);
        return known(
            Arithmetic::Two {
                op,
                word,
                to: Place::Register(ACC),
                from: Source::Immediate(v.value),
            },
            v.next,
        );
    }
    if n == 7 {
        return column7(r, b);
    }
    if b < 0x20 {
        return known(Stack::PushSegment { seg: b / 8 }, r.read);
    }
    // 26, 2E, 36, 3E are prefixes
    Err(Refusal::UnknownInstruction)
}
