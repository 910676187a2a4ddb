// The first bytes 90 to BF.
#![tactic(auto)]

ghost use Rattle.std.specs.Prelude.{◌≤◌, ◌<◌};
ghost use Rattle.sheet.specs.FirstByte.{bytes80};
ghost use Rattle.code_answer.specs.Answer.{Names};
ghost use Rattle.code_bytes.specs.Lent.{lent_code};

use code_answer::{ACC, Decoded, known};
use code_bytes::Reader;
use sheet::{
    Arithmetic, Branch, Control, Convert, Mode, Place, Primitive, Refusal, Source, Stack, Transfer,
};

fn codes98(r: Reader, b: u8) -> Result<Decoded, Refusal>
    requires { (0x98 ≤ b) × (b < 0xa0) }
    ensures { Names (bytes80 r.entry.prefixes) b (lent_code r.entry.code) r.entry.read result }
{
    match b {
        0x98 => known(Convert::Cvtbw, r.read),
        0x99 => known(Convert::Cvtwl, r.read),
        0x9a => {
            let to = r.far();
            known(
                Branch::CallFar {
                    ps: to.segment,
                    pc: to.offset,
                },
                r.read + 4,
            )
        }
        0x9b => Err(Refusal::UnknownInstruction),
        0x9c => known(Stack::PushPsw, r.read),
        0x9d => known(Mode::PopPsw, r.read),
        0x9e => known(Transfer::PswFromAh, r.read),
        _ => known(Transfer::AhFromPsw, r.read),
    }
}

// A0 to A3: the accumulator and a byte or word at a 16-bit address.
fn acc_memory(r: Reader, b: u8) -> Result<Decoded, Refusal>
    requires { (0xa0 ≤ b) × (b < 0xa4) }
    ensures { Names (bytes80 r.entry.prefixes) b (lent_code r.entry.code) r.entry.read result }
{
    let address = code_operand::direct(r.prefixes, r.word());
    let word = b % 2 == 1;
    let group = if b < 0xa2 {
        Transfer::LoadAcc {
            word,
            from: address,
        }
    } else {
        Transfer::StoreAcc { word, to: address }
    };
    known(group, r.read + 2)
}

fn codesa0(r: Reader, b: u8) -> Result<Decoded, Refusal>
    requires { (0xa0 ≤ b) × (b < 0xb0) }
    ensures { Names (bytes80 r.entry.prefixes) b (lent_code r.entry.code) r.entry.read result }
{
    if b < 0xa4 {
        return acc_memory(r, b);
    }
    if b / 2 == 0x54 {
        let word = b % 2 == 1;
        let v = r.immediate(word);
        return known(
            Arithmetic::Test {
                word,
                left: Place::Register(ACC),
                right: Source::Immediate(v.value),
            },
            v.next,
        );
    }
    let primitive = match b / 2 {
        0x52 => Primitive::Movbk,
        0x53 => Primitive::Cmpbk,
        0x55 => Primitive::Stm,
        0x56 => Primitive::Ldm,
        _ => Primitive::Cmpm,
    };
    code_operand::block(r, primitive, b)
}

// B0 to BF: a register and an immediate.
fn load_register(r: Reader, b: u8) -> Result<Decoded, Refusal>
    requires { (0xb0 ≤ b) × (b < 0xc0) }
    ensures { Names (bytes80 r.entry.prefixes) b (lent_code r.entry.code) r.entry.read result }
{
    let word = 0xb8 <= b;
    let v = r.immediate(word);
    known(
        Transfer::Mov {
            word,
            to: Place::Register(b % 8),
            from: Source::Immediate(v.value),
        },
        v.next,
    )
}

pub fn codes90(r: Reader, b: u8) -> Result<Decoded, Refusal>
    requires { (0x90 ≤ b) × (b < 0xc0) }
    ensures { Names (bytes80 r.entry.prefixes) b (lent_code r.entry.code) r.entry.read result }
{
    if b == 0x90 {
        return known(Control::Nop, r.read);
    }
    if b < 0x98 {
        return known(
            Transfer::Xch {
                word: true,
                reg: b % 8,
                with: Place::Register(ACC),
            },
            r.read,
        );
    }
    if b < 0xa0 {
        return codes98(r, b);
    }
    if b < 0xb0 {
        return codesa0(r, b);
    }
    load_register(r, b)
}
