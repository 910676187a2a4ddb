// What a first byte names: the parts of the table as one.
ghost use Rattle.std.specs.Prelude.{◌≤◌};
ghost use Rattle.sheet.specs.FirstByte.{bytes_c0, first_bytes};
ghost use Rattle.code_answer.specs.Answer.{Names};
ghost use Rattle.code_bytes.specs.Lent.{lent_code};

use code_answer::Decoded;
use code_bytes::Reader;
use sheet::Refusal;

fn first_high(r: Reader, b: u8) -> Result<Decoded, Refusal>
    requires { 0xc0 ≤ b }
    ensures { Names (bytes_c0 r.entry.prefixes) b (lent_code r.entry.code) r.entry.read result }
{
    if b < 0xd0 {
        return code_c0::codesc0(r, b);
    }
    if b < 0xe0 {
        return code_d0::codesd0(r, b);
    }
    if b < 0xf0 {
        return code_e0::codese0(r, b);
    }
    code_f0::codesf0(r, b)
}

pub fn first(r: Reader, b: u8) -> Result<Decoded, Refusal>
    requires { r.read ≤ 4 }
    ensures { Names (first_bytes r.entry.prefixes) b (lent_code r.entry.code) r.entry.read result }
{
    if b < 0x40 {
        return code_00::codes00(r, b);
    }
    if b < 0x80 {
        return code_40::codes40(r, b);
    }
    if b < 0x90 {
        return code_80::codes80(r, b);
    }
    if b < 0xc0 {
        return code_90::codes90(r, b);
    }
    first_high(r, b)
}
