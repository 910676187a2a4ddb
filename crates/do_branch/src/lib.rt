// CALL, RET, BR. PC stands on the next instruction when these begin.
#![tactic(auto)]

ghost use Rattle.sheet.specs.Branch as tree;
ghost use Rattle.sheet.specs.Contract.{OnFile};
ghost use Rattle.mach_tally.specs.Lent.{Does, Takes};

use mach_registers::{PC, SP};
use sheet::{Address, Branch, Bus, Place};

fn release(file: &mut [u16; 14], size: u16)
    ensures { OnFile Unit (tree.release size) file.old tt file.new }
{
    file[SP] = calc_word::plus16(file[SP], size);
}

fn ret(file: &mut [u16; 14], ram: &[u8], rom: &[u8]) -> Bus
    ensures { Takes Unit tree.ret file ram rom tt result 2 }
{
    let pc = mach_stack::pop(file, ram, rom);
    file[PC] = pc.value;
    pc.bus
}

fn ret_pop(file: &mut [u16; 14], ram: &[u8], rom: &[u8], size: u16) -> Bus
    ensures { Takes Unit (tree.ret_pop size) file ram rom tt result 2 }
{
    let b = ret(file, ram, rom);
    release(file, size);
    b
}

fn ret_far(file: &mut [u16; 14], ram: &[u8], rom: &[u8]) -> Bus
    ensures { Takes Unit tree.ret_far file ram rom tt result 4 }
{
    let pc = mach_stack::pop(file, ram, rom);
    let ps = mach_stack::pop(file, ram, rom);
    mach_jump::jump_far(file, ps.value, pc.value);
    mach_tally::both(pc.bus, ps.bus)
}

fn ret_far_pop(file: &mut [u16; 14], ram: &[u8], rom: &[u8], size: u16) -> Bus
    ensures { Takes Unit (tree.ret_far_pop size) file ram rom tt result 4 }
{
    let b = ret_far(file, ram, rom);
    release(file, size);
    b
}

fn br_to(file: &mut [u16; 14], ram: &[u8], rom: &[u8], to: Place) -> Bus
    ensures { Takes Unit (tree.br_to to) file ram rom tt result 2 }
{
    let v = mach_operand::value_at(true, file, ram, rom, to);
    file[PC] = v.value;
    v.bus
}

// PS's word is read first.
fn br_far_at(file: &mut [u16; 14], ram: &[u8], rom: &[u8], at: Address) -> Bus
    ensures { Takes Unit (tree.br_far_at at) file ram rom tt result 4 }
{
    let g = mach_operand::base(file, at);
    let o = mach_operand::offset(file, at);
    let next = calc_word::plus16(o, 2);
    let ps = mach_memory::load(true, ram, rom, g, next);
    let pc = mach_memory::load(true, ram, rom, g, o);
    mach_jump::jump_far(file, ps.value, pc.value);
    mach_tally::both(ps.bus, pc.bus)
}

pub fn branch(file: &mut [u16; 14], ram: &mut [u8], rom: &[u8], i: Branch) -> Bus
    ensures { Does (tree.branch i) file ram rom result 8 }
{
    match i {
        Branch::CallNear { disp } => do_call::call_near(file, ram, rom, disp),
        Branch::CallTo { to } => do_call::call_to(file, ram, rom, to),
        Branch::CallFar { ps, pc } => do_call::call_far(file, ram, rom, ps, pc),
        Branch::CallFarAt { at } => do_call::call_far_at(file, ram, rom, at),
        Branch::Ret => ret(file, ram, rom),
        Branch::RetPop { size } => ret_pop(file, ram, rom, size),
        Branch::RetFar => ret_far(file, ram, rom),
        Branch::RetFarPop { size } => ret_far_pop(file, ram, rom, size),
        Branch::BrNear { disp } | Branch::BrShort { disp } => {
            mach_jump::jump(file, disp);
            mach_tally::none()
        }
        Branch::BrTo { to } => br_to(file, ram, rom, to),
        Branch::BrFar { ps, pc } => {
            mach_jump::jump_far(file, ps, pc);
            mach_tally::none()
        }
        Branch::BrFarAt { at } => br_far_at(file, ram, rom, at),
    }
}
