// The instructions of the 8080 mode. There are no prefixes.
#![tactic(auto)]

ghost use Rattle.sheet.specs.Step.{code_byte};
ghost use Rattle.sheet.specs.CardCodes.{card_of, card};
ghost use Rattle.code_answer.specs.Answer.{Decodes};
ghost use Rattle.code_bytes.specs.Lent.{lent_code};

use code_answer::Decoded;
use code_bytes::Code;
use sheet::Refusal;
use sheet::cards::Card;

// By the field of two bits.
fn card_of(code: Code, b: u8) -> Result<Decoded<Card>, Refusal>
    ensures { Decodes (card_of b) (lent_code code.entry) 1 result }
{
    let d = b / 8 % 8;
    let l = b % 8;
    match b / 64 {
        0 => code_8080_00::cards00(code, d, l),
        1 => code_8080_00::cards01(code, d, l),
        2 => code_8080_00::cards10(code, d, l),
        _ => code_8080_c0::cards11(code, d, l),
    }
}

// The instruction at PS:PC.
pub fn decode_card(ram: &[u8], rom: &[u8], ps: u16, pc: u16) -> Result<Decoded<Card>, Refusal>
    ensures { Decodes card (code_byte ram.now rom.now ps pc) 0 result }
{
    let code = Code { ram, rom, ps, pc };
    let b = code.byte(0);
    card_of(code, b)
}
