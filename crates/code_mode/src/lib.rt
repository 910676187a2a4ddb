// The decoder of both modes.
#![tactic(auto)]

ghost use Rattle.sheet.specs.Step.{code_byte};
ghost use Rattle.sheet.specs.Width.{pick};
ghost use Rattle.sheet.specs.FirstByte.{instruction};
ghost use Rattle.sheet.specs.CardCodes.{card_instruction};
ghost use Rattle.code_answer.specs.Answer.{Decodes};

use code_answer::{Decoded, known};
use sheet::{Instr, Refusal};

// The instruction at PS:PC, of native mode or of the 8080 mode.
pub fn decode(native: bool, ram: &[u8], rom: &[u8], ps: u16, pc: u16) -> Result<Decoded, Refusal>
    ensures { Decodes (pick native instruction card_instruction) (code_byte ram.now rom.now ps pc) 0 result }
{
    if native {
        return code_decode::decode(ram, rom, ps, pc);
    }
    let d = code_8080::decode_card(ram, rom, ps, pc)?;
    known(Instr::Cards(d.instr), d.size)
}
