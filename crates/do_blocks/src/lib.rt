// The block instructions, with and without ports.
#![tactic(auto)]

ghost use Rattle.sheet.specs.Block as tree;
ghost use Rattle.mach_ports.specs.Lent.{UsesPortsAndRam};

use do_block::Portless;
use do_stream::Streaming;
use mach_ports::Ported;
use sheet::{Primitive, Progress, Refusal, Repeat};

pub fn block(
    file: &mut [u16; 14],
    ram: &mut [u8],
    rom: &[u8],
    tape: &[u8],
    log: &mut [u8],
    q: Progress,
    primitive: Primitive,
    word: bool,
    seg: u8,
    repeat: Repeat,
    start: u16,
) -> Result<Ported, Refusal>
    ensures { UsesPortsAndRam (tree.block primitive word seg repeat start) file ram rom tape log q result 4 }
{
    let kind = match primitive {
        Primitive::Movbk => Portless::Movbk,
        Primitive::Cmpbk => Portless::Cmpbk,
        Primitive::Cmpm => Portless::Cmpm,
        Primitive::Ldm => Portless::Ldm,
        Primitive::Stm => Portless::Stm,
        Primitive::Inm => {
            return do_stream::stream(
                file,
                ram,
                rom,
                tape,
                log,
                q,
                Streaming::Inm,
                word,
                seg,
                repeat,
                start,
            );
        }
        Primitive::Outm => {
            return do_stream::stream(
                file,
                ram,
                rom,
                tape,
                log,
                q,
                Streaming::Outm,
                word,
                seg,
                repeat,
                start,
            );
        }
    };
    Ok(Ported {
        progress: q,
        bus: do_block::block(file, ram, rom, kind, word, seg, repeat, start),
    })
}
