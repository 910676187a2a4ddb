// The prefixes of an instruction, and the byte that follows them.
#![tactic(auto)]

ghost use Rattle.std.specs.Prelude.{◌≡◌, ◌≤◌};
ghost use Rattle.sheet.specs.Encoding.{segment_prefix, repeat_prefix, prefix_of, unprefixed};
ghost use Rattle.code_bytes.specs.Lent.{lent_code};
ghost use Rattle.code_prefix.specs.Found.{found};
ghost use Rattle.code_prefix.specs.Opening.{Opens};

use code_answer::{DS0, DS1, PS, SS};
use code_bytes::Code;
use sheet::{Prefixes, Refusal, Repeat};

// The most prefixes that an instruction has.
const MOST: u16 = 3;

// Where an instruction begins after its prefixes: what they say, its first byte, and how many bytes were read then.
#[derive(Clone, Copy)]
pub struct Opening {
    pub prefixes: Prefixes,
    pub byte: u8,
    pub next: u16,
}

// A segment named, a repeat named.
fn in_segment(p: Prefixes, n: u8) -> Option<Prefixes>
    ensures { result ≡ found (Some (segment_prefix n)) p }
{
    Some(Prefixes {
        seg: Some(n),
        repeat: p.repeat,
    })
}

fn repeating(p: Prefixes, repeat: Repeat) -> Option<Prefixes>
    ensures { result ≡ found (Some (repeat_prefix repeat)) p }
{
    Some(Prefixes { seg: p.seg, repeat })
}

// What all prefixes say, where a byte is one more: of two alike in kind the last counts, and the lock has no effect.
fn prefix(p: Prefixes, b: u8) -> Option<Prefixes>
    ensures { result ≡ found (prefix_of b) p }
{
    match b {
        0x26 => in_segment(p, DS1),
        0x2e => in_segment(p, PS),
        0x36 => in_segment(p, SS),
        0x3e => in_segment(p, DS0),
        0x64 => repeating(p, Repeat::WhileNotCy),
        0x65 => repeating(p, Repeat::WhileCy),
        0xf0 => Some(p),
        0xf2 => repeating(p, Repeat::WhileNotZ),
        0xf3 => repeating(p, Repeat::WhileZ),
        _ => None,
    }
}

// The prefixes from the byte i on, and the byte after them.
fn later(code: Code, p: Prefixes, i: u16) -> Result<Opening, Refusal>
    requires { i ≤ 3 }
    ensures { Opens p (lent_code code.entry) i result }
{
    let byte = code.byte(i);
    let Some(prefixes) = prefix(p, byte) else {
        return Ok(Opening {
            prefixes: p,
            byte,
            next: i + 1,
        });
    };
    if i == MOST {
        return Err(Refusal::FourthPrefix);
    }
    later(code, prefixes, i + 1)
}

// The same from the beginning: most instructions have no prefix, and a function that calls itself is not built into its caller.
pub fn start(code: Code) -> Result<Opening, Refusal>
    ensures { Opens unprefixed (lent_code code.entry) 0 result }
{
    let none = Prefixes {
        seg: None,
        repeat: Repeat::Once,
    };
    let byte = code.byte(0);
    match prefix(none, byte) {
        Some(prefixes) => later(code, prefixes, 1),
        None => Ok(Opening {
            prefixes: none,
            byte,
            next: 1,
        }),
    }
}
