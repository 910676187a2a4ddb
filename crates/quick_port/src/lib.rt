// What readings do at a port: IN, OUT, and INM and OUTM after a repeat prefix.
#![tactic(auto)]

ghost use Rattle.std.specs.Prelude.{◌≡◌, ℕ, true};
ghost use Rattle.sheet.specs.declared.Io.TheVariants as io;
ghost use Rattle.sheet.specs.Ports as tree;
ghost use Rattle.sheet.specs.Contract.{OnFile};
ghost use Rattle.mach_ports.specs.Lent.{UsesPorts, UsesPortsAlone, UsesPortsAndRam};
ghost use Rattle.do_stream.specs.Streams.{primitive_of};
ghost use Rattle.quick_place.specs.Packed.{rm_of, word_of, disp_of};
ghost use Rattle.quick_pack.specs.Readings.{at_port, port_at, stream_at};
ghost use Rattle.quick_port.specs.Trees.{port_tree};

use do_stream::Streaming;
use mach_ports::Ported;
use mach_registers::DW;
use quick_place::{Kind, NO_FORM, Reading};
use sheet::{Progress, Refusal, Repeat};

fn port_of(file: &[u16; 14], r: Reading) -> u16
    ensures { OnFile ℕ (tree.port_number (port_at (rm_of r.bits) (disp_of r.bits))) file.now result file.now }
{
    if r.rm() == NO_FORM {
        return r.disp();
    }
    file[DW]
}

pub fn input(
    file: &mut [u16; 14],
    ram: &[u8],
    rom: &[u8],
    tape: &[u8],
    log: &mut [u8],
    q: Progress,
    r: Reading,
) -> Result<Ported, Refusal>
    ensures { UsesPorts (tree.ports (io.In (word_of r.bits) (port_at (rm_of r.bits) (disp_of r.bits)))) file ram rom tape log q result 2 }
{
    let word = r.word();
    let n = port_of(file, r);
    let t = mach_ports::take(word, tape, log, q, n)?;
    mach_registers::set_reg(word, file, 0, t.value);
    Ok(Ported {
        progress: t.progress,
        bus: t.bus,
    })
}

pub fn output(
    file: &[u16; 14],
    ram: &[u8],
    rom: &[u8],
    tape: &[u8],
    log: &mut [u8],
    q: Progress,
    r: Reading,
) -> Result<Ported, Refusal>
    ensures { UsesPortsAlone (tree.ports (io.Out (word_of r.bits) (port_at (rm_of r.bits) (disp_of r.bits)))) file ram rom tape log q result 2 }
{
    let word = r.word();
    let n = port_of(file, r);
    let v = mach_registers::reg(word, file, 0);
    mach_ports::give(word, log, q, n, v)
}

#[tactic(auto, unfolding(quick_pack::specs::Readings::stream_at))]
fn stream_at(op: u8) -> Streaming
    ensures { primitive_of result ≡ stream_at op }
{
    if op == 0 {
        return Streaming::Inm;
    }
    Streaming::Outm
}

// A reading at a port, of an instruction that begins at the offset `start`.
pub fn access(
    file: &mut [u16; 14],
    ram: &mut [u8],
    rom: &[u8],
    tape: &[u8],
    log: &mut [u8],
    q: Progress,
    r: Reading,
    start: u16,
) -> Result<Ported, Refusal>
    requires { at_port r.bits ≡ true }
    ensures { UsesPortsAndRam (port_tree r.bits start) file ram rom tape log q result 4 }
{
    match r.kind() {
        Kind::In => input(file, ram, rom, tape, log, q, r),
        Kind::Out => output(file, ram, rom, tape, log, q, r),
        _ => {
            let kind = stream_at(r.op_number());
            let word = r.word();
            let seg = r.segment();
            do_stream::stream(
                file,
                ram,
                rom,
                tape,
                log,
                q,
                kind,
                word,
                seg,
                Repeat::WhileZ,
                start,
            )
        }
    }
}
