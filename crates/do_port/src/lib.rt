// IN and OUT.
#![tactic(auto)]

ghost use Rattle.std.specs.Prelude.{◌≡◌, ℕ};
ghost use Rattle.sheet.specs.Ports as tree;
ghost use Rattle.sheet.specs.declared.Io.TheVariants as io;
ghost use Rattle.sheet.specs.Contract.{OnFile};
ghost use Rattle.mach_ports.specs.Lent.{UsesPorts, UsesPortsAlone};

use mach_ports::Ported;
use mach_registers::DW;
use sheet::{Io, Port, Progress, Refusal};

fn port_number(file: &[u16; 14], port: Port) -> u16
    ensures { OnFile ℕ (tree.port_number port) file.now result file.now }
{
    match port {
        Port::InDw => file[DW],
        Port::Numbered(n) => n as u16,
    }
}

fn input(
    file: &mut [u16; 14],
    ram: &[u8],
    rom: &[u8],
    tape: &[u8],
    log: &mut [u8],
    q: Progress,
    word: bool,
    port: Port,
) -> Result<Ported, Refusal>
    ensures { UsesPorts (tree.ports (io.In word port)) file ram rom tape log q result 2 }
{
    let n = port_number(file, port);
    let t = mach_ports::take(word, tape, log, q, n)?;
    mach_registers::set_reg(word, file, 0, t.value);
    Ok(Ported {
        progress: t.progress,
        bus: t.bus,
    })
}

fn output(
    file: &[u16; 14],
    ram: &[u8],
    rom: &[u8],
    tape: &[u8],
    log: &mut [u8],
    q: Progress,
    word: bool,
    port: Port,
) -> Result<Ported, Refusal>
    ensures { UsesPortsAlone (tree.ports (io.Out word port)) file ram rom tape log q result 2 }
{
    let n = port_number(file, port);
    let v = mach_registers::reg(word, file, 0);
    mach_ports::give(word, log, q, n, v)
}

pub fn access(
    file: &mut [u16; 14],
    ram: &[u8],
    rom: &[u8],
    tape: &[u8],
    log: &mut [u8],
    q: Progress,
    i: Io,
) -> Result<Ported, Refusal>
    ensures { UsesPorts (tree.ports i) file ram rom tape log q result 2 }
{
    match i {
        Io::In { word, port } => input(file, ram, rom, tape, log, q, word, port),
        Io::Out { word, port } => output(file, ram, rom, tape, log, q, word, port),
    }
}
