// What may write MD: POP PSW, RETI, BRKEM; in the 8080 mode CALLN and RETEM.
#![tactic(auto)]

ghost use Rattle.std.specs.Prelude.{ℕ};
ghost use Rattle.sheet.specs.Mode as tree;
ghost use Rattle.mach_tally.specs.Lent.{Takes};
ghost use Rattle.do_mode.specs.Marked.{TakesBack, Leaves};

use calc_flags::{MD, flag};
use mach_memory::Loaded;
use mach_registers::{PC, PS, PSW};
use sheet::cards::CardMode;
use sheet::{Bus, Marks, Mode};

// The marks afterwards, and the accesses.
#[derive(Clone, Copy)]
pub struct Moded {
    pub marks: Marks,
    pub bus: Bus,
}

// The flags of a stored PSW, and its MD under the permission.
fn take_back(file: &mut [u16; 14], m: Marks, x: u16)
    ensures { TakesBack x file.old m file.new }
{
    file[PSW] = calc_psw::restore(x, file[PSW]);
    if m.writable {
        let md = flag::<MD>(x);
        file[PSW] = calc_psw::in_mode(md, file[PSW]);
    }
}

fn pop_psw(file: &mut [u16; 14], ram: &[u8], rom: &[u8], m: Marks) -> Moded
    ensures { Leaves tree.pop_psw file ram.now rom m ram.now result.marks result.bus 2 }
{
    let x = mach_stack::pop(file, ram, rom);
    take_back(file, m, x.value);
    let bus = x.bus;
    Moded { marks: m, bus }
}

// PC and PS are popped, and a PSW.
fn pop_return(file: &mut [u16; 14], ram: &[u8], rom: &[u8]) -> Loaded
    ensures { Takes ℕ tree.pop_return file ram rom result.value result.bus 6 }
{
    let pc = mach_stack::pop(file, ram, rom);
    let ps = mach_stack::pop(file, ram, rom);
    let x = mach_stack::pop(file, ram, rom);
    file[PC] = pc.value;
    file[PS] = ps.value;
    Loaded {
        value: x.value,
        bus: mach_tally::three(pc.bus, ps.bus, x.bus),
    }
}

fn reti(file: &mut [u16; 14], ram: &[u8], rom: &[u8], m: Marks) -> Moded
    ensures { Leaves tree.reti file ram.now rom m ram.now result.marks result.bus 6 }
{
    let x = pop_return(file, ram, rom);
    take_back(file, m, x.value);
    let bus = x.bus;
    Moded { marks: m, bus }
}

fn retem(file: &mut [u16; 14], ram: &[u8], rom: &[u8], m: Marks) -> Moded
    ensures { Leaves tree.retem file ram.now rom m ram.now result.marks result.bus 6 }
{
    let x = pop_return(file, ram, rom);
    file[PSW] = calc_psw::restore(x.value, file[PSW]);
    file[PSW] = calc_psw::in_mode(true, file[PSW]);
    let bus = x.bus;
    Moded {
        marks: mach_marks::permitting(m, false),
        bus,
    }
}

fn brkem(file: &mut [u16; 14], ram: &mut [u8], rom: &[u8], m: Marks, v: u8) -> Moded
    ensures { Leaves (tree.brkem v) file ram.old rom m ram.new result.marks result.bus 8 }
{
    let x = calc_psw::in_mode(false, file[PSW]);
    let b = mach_stack::vectored(file, ram, rom, v, x);
    Moded {
        marks: mach_marks::permitting(m, true),
        bus: b,
    }
}

fn calln(file: &mut [u16; 14], ram: &mut [u8], rom: &[u8], m: Marks, v: u8) -> Moded
    ensures { Leaves (tree.calln v) file ram.old rom m ram.new result.marks result.bus 8 }
{
    let x = calc_psw::in_mode(true, file[PSW]);
    let b = mach_stack::vectored(file, ram, rom, v, x);
    Moded { marks: m, bus: b }
}

pub fn mode(file: &mut [u16; 14], ram: &mut [u8], rom: &[u8], m: Marks, i: Mode) -> Moded
    ensures { Leaves (tree.modes i) file ram.old rom m ram.new result.marks result.bus 8 }
{
    match i {
        Mode::PopPsw => pop_psw(file, ram, rom, m),
        Mode::Reti => reti(file, ram, rom, m),
        Mode::Brkem { vector } => brkem(file, ram, rom, m, vector),
    }
}

pub fn card_mode(file: &mut [u16; 14], ram: &mut [u8], rom: &[u8], m: Marks, i: CardMode) -> Moded
    ensures { Leaves (tree.card_modes i) file ram.old rom m ram.new result.marks result.bus 8 }
{
    match i {
        CardMode::Calln { vector } => calln(file, ram, rom, m, vector),
        CardMode::Retem => retem(file, ram, rom, m),
    }
}
