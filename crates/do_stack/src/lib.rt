// PUSH, POP, PREPARE, DISPOSE.
#![tactic(auto)]

ghost use Rattle.sheet.specs.declared.Place.TheVariants.{Memory};
ghost use Rattle.sheet.specs.Traps.{push_psw};
ghost use Rattle.sheet.specs.Stack as tree;
ghost use Rattle.mach_tally.specs.Lent.{Does, Takes};

use mach_registers::{PSW, SP, SS};
use sheet::{Address, Bus, Place, Stack};

// SP falls before the register is read.
fn push_register(file: &mut [u16; 14], ram: &mut [u8], rom: &[u8], n: u8) -> Bus
    ensures { Does (tree.push_register n) file ram rom result 2 }
{
    file[SP] = calc_word::minus16(file[SP], 2);
    let ss = file[SS];
    let sp = file[SP];
    let v = mach_registers::reg(true, file, n);
    mach_memory::store(true, ram, ss, sp, v)
}

fn push_held(file: &mut [u16; 14], ram: &mut [u8], rom: &[u8], a: Address) -> Bus
    ensures { Does (tree.push_place (Memory a)) file ram rom result 4 }
{
    let v = mach_operand::value_at(true, file, ram, rom, Place::Memory(a));
    let b = mach_stack::push(file, ram, rom, v.value);
    mach_tally::both(v.bus, b)
}

fn push_place(file: &mut [u16; 14], ram: &mut [u8], rom: &[u8], from: Place) -> Bus
    ensures { Does (tree.push_place from) file ram rom result 4 }
{
    match from {
        Place::Register(n) => push_register(file, ram, rom, n),
        Place::Memory(a) => push_held(file, ram, rom, a),
    }
}

fn push_segment(file: &mut [u16; 14], ram: &mut [u8], rom: &[u8], seg: u8) -> Bus
    ensures { Does (tree.push_segment seg) file ram rom result 2 }
{
    let v = mach_registers::base(file, seg);
    mach_stack::push(file, ram, rom, v)
}

fn push_psw(file: &mut [u16; 14], ram: &mut [u8], rom: &[u8]) -> Bus
    ensures { Does push_psw file ram rom result 2 }
{
    let x = file[PSW];
    mach_stack::push(file, ram, rom, x)
}

fn pop_place(file: &mut [u16; 14], ram: &mut [u8], rom: &[u8], to: Place) -> Bus
    ensures { Does (tree.pop_place to) file ram rom result 4 }
{
    let v = mach_stack::pop(file, ram, rom);
    let spot = mach_operand::locate(file, to);
    let b = mach_operand::deposit(true, file, ram, rom, spot, v.value);
    mach_tally::both(v.bus, b)
}

fn pop_segment(file: &mut [u16; 14], ram: &[u8], rom: &[u8], seg: u8) -> Bus
    ensures { Takes Unit (tree.pop_segment seg) file ram rom tt result 2 }
{
    let v = mach_stack::pop(file, ram, rom);
    mach_registers::set_base(file, seg, v.value);
    v.bus
}

pub fn stack(file: &mut [u16; 14], ram: &mut [u8], rom: &[u8], i: Stack) -> Bus
    ensures { Does (tree.stack i) file ram rom result 1020 }
{
    match i {
        Stack::Push { from } => push_place(file, ram, rom, from),
        Stack::PushByte { value } | Stack::PushWord { value } => {
            mach_stack::push(file, ram, rom, value)
        }
        Stack::PushSegment { seg } => push_segment(file, ram, rom, seg),
        Stack::PushPsw => push_psw(file, ram, rom),
        Stack::PushR => do_push_r::push_r(file, ram, rom),
        Stack::Pop { to } => pop_place(file, ram, rom, to),
        Stack::PopSegment { seg } => pop_segment(file, ram, rom, seg),
        Stack::PopR => do_push_r::pop_r(file, ram, rom),
        Stack::Prepare { size, level } => do_frame::prepare(file, ram, rom, size, level),
        Stack::Dispose => do_frame::dispose(file, ram, rom),
    }
}
