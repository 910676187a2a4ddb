// The first bytes C0 to CF.
#![tactic(auto)]

ghost use Rattle.std.specs.Prelude.{◌≤◌, ◌<◌};
ghost use Rattle.sheet.specs.Groups.{Transfers};
ghost use Rattle.sheet.specs.declared.Transfer.TheVariants.{LoadPointer};
ghost use Rattle.sheet.specs.FirstByte.{with_memory, with_counted, shift_group, bytes_c0};
ghost use Rattle.code_answer.specs.Answer.{Decodes, Names};
ghost use Rattle.code_bytes.specs.Lent.{lent_code};

use code_answer::{DS0, DS1, Decoded, known};
use code_bytes::Reader;
use sheet::{Amount, Branch, Compute, Interrupt, Mode, Places, Refusal, Source, Stack, Transfer};

// C0 and C1: the count follows.
fn shift_given(r: Reader, b: u8) -> Result<Decoded, Refusal>
    ensures { Decodes (shift_group r.entry.prefixes with_counted b) (lent_code r.entry.code) r.entry.read result }
{
    let o = code_operand::operands(r);
    let kind = o.shift()?;
    let count = r.code.byte(o.next);
    known(
        Compute::Shifts {
            kind,
            word: b % 2 == 1,
            to: o.place,
            places: Places::Counted(Amount::Given(count)),
        },
        o.next + 1,
    )
}

fn load_pointer(r: Reader, seg: u8) -> Result<Decoded, Refusal>
    ensures { Decodes (with_memory r.entry.prefixes (λ reg a. Transfers (LoadPointer seg reg a))) (lent_code r.entry.code) r.entry.read result }
{
    let o = code_operand::operands(r);
    let from = o.memory()?;
    known(
        Transfer::LoadPointer {
            seg,
            reg: o.reg,
            from,
        },
        o.next,
    )
}

// C6 and C7: an immediate to a place.
fn move_immediate(r: Reader, b: u8) -> Result<Decoded, Refusal>
    requires { (0xc6 ≤ b) × (b < 0xc8) }
    ensures { Names (bytes_c0 r.entry.prefixes) b (lent_code r.entry.code) r.entry.read result }
{
    let o = code_operand::operands(r);
    let to = o.plain()?;
    let word = b % 2 == 1;
    let v = r.code.immediate(word, o.next);
    known(
        Transfer::Mov {
            word,
            to,
            from: Source::Immediate(v.value),
        },
        v.next,
    )
}

fn codesc2(r: Reader, b: u8) -> Result<Decoded, Refusal>
    requires { (0xc2 ≤ b) × (b < 0xc6) }
    ensures { Names (bytes_c0 r.entry.prefixes) b (lent_code r.entry.code) r.entry.read result }
{
    match b {
        0xc2 => known(Branch::RetPop { size: r.word() }, r.read + 2),
        0xc3 => known(Branch::Ret, r.read),
        0xc4 => load_pointer(r, DS1),
        _ => load_pointer(r, DS0),
    }
}

fn codesc8(r: Reader, b: u8) -> Result<Decoded, Refusal>
    requires { (0xc8 ≤ b) × (b < 0xd0) }
    ensures { Names (bytes_c0 r.entry.prefixes) b (lent_code r.entry.code) r.entry.read result }
{
    match b {
        0xc8 => {
            let size = r.word();
            let level = r.code.byte(r.read + 2);
            known(Stack::Prepare { size, level }, r.read + 2 + 1)
        }
        0xc9 => known(Stack::Dispose, r.read),
        0xca => known(Branch::RetFarPop { size: r.word() }, r.read + 2),
        0xcb => known(Branch::RetFar, r.read),
        0xcc => known(Interrupt::Brk3, r.read),
        0xcd => known(Interrupt::Brk { vector: r.byte() }, r.read + 1),
        0xce => known(Interrupt::Brkv, r.read),
        _ => known(Mode::Reti, r.read),
    }
}

pub fn codesc0(r: Reader, b: u8) -> Result<Decoded, Refusal>
    requires { (0xc0 ≤ b) × (b < 0xd0) }
    ensures { Names (bytes_c0 r.entry.prefixes) b (lent_code r.entry.code) r.entry.read result }
{
    if b < 0xc2 {
        return shift_given(r, b);
    }
    if b < 0xc6 {
        return codesc2(r, b);
    }
    if b < 0xc8 {
        return move_immediate(r, b);
    }
    codesc8(r, b)
}
