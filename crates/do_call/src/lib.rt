// CALL. PC stands on the next instruction when it begins.
#![tactic(auto)]

ghost use Rattle.sheet.specs.declared.Place.TheVariants.{Register, Memory};
ghost use Rattle.sheet.specs.Branch as tree;
ghost use Rattle.mach_tally.specs.Lent.{Does};

use mach_registers::PC;
use sheet::{Address, Bus, Place};

fn push_pc(file: &mut [u16; 14], ram: &mut [u8], rom: &[u8]) -> Bus
    ensures { Does tree.push_pc file ram rom result 2 }
{
    let pc = file[PC];
    mach_stack::push(file, ram, rom, pc)
}

pub fn call_near(file: &mut [u16; 14], ram: &mut [u8], rom: &[u8], disp: u16) -> Bus
    ensures { Does (tree.call_near disp) file ram rom result 2 }
{
    let b = push_pc(file, ram, rom);
    mach_jump::jump(file, disp);
    b
}

// CALL regptr16 reads its register after the push.
fn call_register(file: &mut [u16; 14], ram: &mut [u8], rom: &[u8], n: u8) -> Bus
    ensures { Does (tree.call_to (Register n)) file ram rom result 2 }
{
    let b = push_pc(file, ram, rom);
    file[PC] = mach_registers::reg(true, file, n);
    b
}

// CALL memptr16 reads its memory before the push.
fn call_held(file: &mut [u16; 14], ram: &mut [u8], rom: &[u8], a: Address) -> Bus
    ensures { Does (tree.call_to (Memory a)) file ram rom result 4 }
{
    let v = mach_operand::value_at(true, file, ram, rom, Place::Memory(a));
    let b = push_pc(file, ram, rom);
    file[PC] = v.value;
    mach_tally::both(v.bus, b)
}

pub fn call_to(file: &mut [u16; 14], ram: &mut [u8], rom: &[u8], to: Place) -> Bus
    ensures { Does (tree.call_to to) file ram rom result 4 }
{
    match to {
        Place::Register(n) => call_register(file, ram, rom, n),
        Place::Memory(a) => call_held(file, ram, rom, a),
    }
}

pub fn call_far(file: &mut [u16; 14], ram: &mut [u8], rom: &[u8], ps: u16, pc: u16) -> Bus
    ensures { Does (tree.call_far ps pc) file ram rom result 4 }
{
    let b = mach_stack::push_ps_pc(file, ram, rom);
    mach_jump::jump_far(file, ps, pc);
    b
}

pub fn call_far_at(file: &mut [u16; 14], ram: &mut [u8], rom: &[u8], at: Address) -> Bus
    ensures { Does (tree.call_far_at at) file ram rom result 8 }
{
    let p = mach_operand::pair_at(file, ram, rom, at);
    let b = call_far(file, ram, rom, p.high, p.low);
    mach_tally::both(p.bus, b)
}
