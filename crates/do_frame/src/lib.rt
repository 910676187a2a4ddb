// PREPARE and DISPOSE.
#![tactic(auto)]

ghost use Rattle.std.specs.Prelude.{◌≤◌};
ghost use Rattle.sheet.specs.Act.{loop};
ghost use Rattle.sheet.specs.Stack as tree;
ghost use Rattle.mach_tally.specs.Lent.{Does, Takes};

use mach_registers::{BP, SP, SS};
use sheet::Bus;

// One pointer of the caller's frame; which one is as BP says.
fn copy_pointer(file: &mut [u16; 14], ram: &mut [u8], rom: &[u8]) -> Bus
    ensures { Does (tree.frame 0 tt) file ram rom result 4 }
{
    let bp = calc_word::minus16(file[BP], 2);
    let ss = file[SS];
    file[BP] = bp;
    let v = mach_memory::load(true, ram, rom, ss, bp);
    let b = mach_stack::push(file, ram, rom, v.value);
    mach_tally::both(v.bus, b)
}

fn copy_pointers(file: &mut [u16; 14], ram: &mut [u8], rom: &[u8], n: u8) -> Bus
    requires { n ≤ 254 }
    ensures { Does (loop tree.frame n 0 tt) file ram rom result 1016 }
{
    let mut t = mach_tally::none();
    // the proof counts by i
    for i in 0..n {
        let b = copy_pointer(file, ram, rom);
        t = mach_tally::both(t, b);
    }
    t
}

// The pointers that a level asks for: the caller's, and the new frame's.
fn frames(file: &mut [u16; 14], ram: &mut [u8], rom: &[u8], level: u8, temp: u16) -> Bus
    ensures { Does (tree.frames level temp) file ram rom result 1018 }
{
    if level == 0 {
        return mach_tally::none();
    }
    let a = copy_pointers(file, ram, rom, level - 1);
    let b = mach_stack::push(file, ram, rom, temp);
    mach_tally::both(a, b)
}

pub fn prepare(file: &mut [u16; 14], ram: &mut [u8], rom: &[u8], size: u16, level: u8) -> Bus
    ensures { Does (tree.prepare size level) file ram rom result 1020 }
{
    let bp = file[BP];
    let temp = calc_word::minus16(file[SP], 2);
    let a = mach_stack::push(file, ram, rom, bp);
    let b = frames(file, ram, rom, level, temp);
    file[BP] = temp;
    file[SP] = calc_word::minus16(file[SP], size);
    mach_tally::both(a, b)
}

pub fn dispose(file: &mut [u16; 14], ram: &[u8], rom: &[u8]) -> Bus
    ensures { Takes Unit tree.dispose file ram rom tt result 2 }
{
    let bp = file[BP];
    file[SP] = bp;
    let v = mach_stack::pop(file, ram, rom);
    file[BP] = v.value;
    v.bus
}
