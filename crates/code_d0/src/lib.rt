// The first bytes D0 to DF.
#![tactic(auto)]

ghost use Rattle.std.specs.Prelude.{◌≤◌, ◌<◌};
ghost use Rattle.sheet.specs.Reading.{got};
ghost use Rattle.sheet.specs.FirstByte.{shift_group, after_ten, bytes_c0};
ghost use Rattle.code_answer.specs.Answer.{Decodes, Names};
ghost use Rattle.code_bytes.specs.Lent.{lent_code};

use code_answer::{DS0, Decoded, known};
use code_bytes::Reader;
use sheet::{Amount, Compute, Convert, Places, Refusal, Transfer};

// D0 to D3: by one, or by CL.
fn shift_fixed(r: Reader, places: Places, b: u8) -> Result<Decoded, Refusal>
    ensures { Decodes (shift_group r.entry.prefixes (got places) b) (lent_code r.entry.code) r.entry.read result }
{
    let o = code_operand::operands(r);
    let kind = o.shift()?;
    known(
        Compute::Shifts {
            kind,
            word: b % 2 == 1,
            to: o.place,
            places,
        },
        o.next,
    )
}

// D4 and D5 are followed by 0Ah.
fn after_ten(r: Reader, group: Convert) -> Result<Decoded, Refusal>
    ensures { Decodes (after_ten group) (lent_code r.entry.code) r.entry.read result }
{
    if r.byte() == 0x0a {
        known(group, r.read + 1)
    } else {
        Err(Refusal::UnknownInstruction)
    }
}

pub fn codesd0(r: Reader, b: u8) -> Result<Decoded, Refusal>
    requires { (0xd0 ≤ b) × (b < 0xe0) }
    ensures { Names (bytes_c0 r.entry.prefixes) b (lent_code r.entry.code) r.entry.read result }
{
    match b {
        0xd0 | 0xd1 => shift_fixed(r, Places::One, b),
        0xd2 | 0xd3 => shift_fixed(r, Places::Counted(Amount::InCl), b),
        0xd4 => after_ten(r, Convert::Cvtbd),
        0xd5 => after_ten(r, Convert::Cvtdb),
        0xd7 => {
            let seg = r.prefixes.seg.unwrap_or(DS0);
            known(Transfer::Trans { seg }, r.read)
        }
        _ => Err(Refusal::UnknownInstruction),
    }
}
