// The decoder: prefixes, and the instruction that follows them.
#![tactic(auto)]

mod first;

ghost use Rattle.sheet.specs.Step.{code_byte};
ghost use Rattle.sheet.specs.FirstByte.{instruction};
ghost use Rattle.code_answer.specs.Answer.{Decodes};

use code_answer::Decoded;
use code_bytes::{Code, Reader};
use sheet::Refusal;

// The instruction at PS:PC.
pub fn decode(ram: &[u8], rom: &[u8], ps: u16, pc: u16) -> Result<Decoded, Refusal>
    ensures { Decodes instruction (code_byte ram.now rom.now ps pc) 0 result }
{
    let code = Code { ram, rom, ps, pc };
    match code_prefix::start(code) {
        Ok(o) => {
            let r = Reader {
                code,
                prefixes: o.prefixes,
                read: o.next,
            };
            first::first(r, o.byte)
        }
        Err(refusal) => Err(refusal),
    }
}
