// The first bytes E0 to EF.
#![tactic(auto)]

ghost use Rattle.std.specs.Prelude.{◌≤◌, ◌<◌};
ghost use Rattle.sheet.specs.FirstByte.{bytes_c0};
ghost use Rattle.code_answer.specs.Answer.{Names};
ghost use Rattle.code_bytes.specs.Lent.{lent_code};

use code_answer::{Decoded, known};
use code_bytes::Reader;
use sheet::{Branch, Conditional, Io, Port, Refusal};

// E0 to E3: branches by CW.
fn loops(r: Reader, b: u8) -> Result<Decoded, Refusal>
    requires { (0xe0 ≤ b) × (b < 0xe4) }
    ensures { Names (bytes_c0 r.entry.prefixes) b (lent_code r.entry.code) r.entry.read result }
{
    let disp = r.short();
    let group = match b {
        0xe0 => Conditional::Dbnzne { disp },
        0xe1 => Conditional::Dbnze { disp },
        0xe2 => Conditional::Dbnz { disp },
        _ => Conditional::Bcwz { disp },
    };
    known(group, r.read + 1)
}

// E4 to E7: a port whose number follows.
fn numbered_ports(r: Reader, b: u8) -> Result<Decoded, Refusal>
    requires { (0xe4 ≤ b) × (b < 0xe8) }
    ensures { Names (bytes_c0 r.entry.prefixes) b (lent_code r.entry.code) r.entry.read result }
{
    let word = b % 2 == 1;
    let port = Port::Numbered(r.byte());
    let group = if b < 0xe6 {
        Io::In { word, port }
    } else {
        Io::Out { word, port }
    };
    known(group, r.read + 1)
}

fn codese8(r: Reader, b: u8) -> Result<Decoded, Refusal>
    requires { (0xe8 ≤ b) × (b < 0xec) }
    ensures { Names (bytes_c0 r.entry.prefixes) b (lent_code r.entry.code) r.entry.read result }
{
    match b {
        0xe8 => known(Branch::CallNear { disp: r.word() }, r.read + 2),
        0xe9 => known(Branch::BrNear { disp: r.word() }, r.read + 2),
        0xea => {
            let to = r.far();
            known(
                Branch::BrFar {
                    ps: to.segment,
                    pc: to.offset,
                },
                r.read + 4,
            )
        }
        _ => known(Branch::BrShort { disp: r.short() }, r.read + 1),
    }
}

pub fn codese0(r: Reader, b: u8) -> Result<Decoded, Refusal>
    requires { (0xe0 ≤ b) × (b < 0xf0) }
    ensures { Names (bytes_c0 r.entry.prefixes) b (lent_code r.entry.code) r.entry.read result }
{
    if b < 0xe4 {
        return loops(r, b);
    }
    if b < 0xe8 {
        return numbered_ports(r, b);
    }
    if b < 0xec {
        return codese8(r, b);
    }
    let word = b % 2 == 1;
    let port = Port::InDw;
    let group = if b < 0xee {
        Io::In { word, port }
    } else {
        Io::Out { word, port }
    };
    known(group, r.read)
}
