// Jumps, calls and returns of the 8080 mode. PC stands on the next instruction when these begin.
#![tactic(auto)]

ghost use Rattle.std.specs.Prelude.{◌*◌};
ghost use Rattle.sheet.specs.CardBranch as tree;
ghost use Rattle.mach_tally.specs.Lent.{Does};

use mach_registers::{BW, PC};
use sheet::Bus;
use sheet::cards::CardBranch;

fn jmp(file: &mut [u16; 14], ram: &mut [u8], rom: &[u8], to: u16) -> Bus
    ensures { Does (tree.jmp to) file ram rom result 2 }
{
    file[PC] = to;
    mach_tally::none()
}

fn pchl(file: &mut [u16; 14], ram: &mut [u8], rom: &[u8]) -> Bus
    ensures { Does tree.pchl file ram rom result 2 }
{
    file[PC] = file[BW];
    mach_tally::none()
}

fn call(file: &mut [u16; 14], ram: &mut [u8], rom: &[u8], to: u16) -> Bus
    ensures { Does (tree.card_call to) file ram rom result 2 }
{
    let pc = file[PC];
    let b = do_8080_stack::push(file, ram, rom, pc);
    file[PC] = to;
    b
}

fn rst(file: &mut [u16; 14], ram: &mut [u8], rom: &[u8], number: u8) -> Bus
    ensures { Does (tree.card_call (8 * number)) file ram rom result 2 }
{
    call(file, ram, rom, 8 * number as u16)
}

fn ret(file: &mut [u16; 14], ram: &mut [u8], rom: &[u8]) -> Bus
    ensures { Does tree.card_ret file ram rom result 2 }
{
    let v = do_8080_stack::pop(file, ram, rom);
    file[PC] = v.value;
    v.bus
}

// This and the next two share a question alone: a function that takes what follows it would have registers and memory in a closure's contract.
fn jump_if(file: &mut [u16; 14], ram: &mut [u8], rom: &[u8], condition: u8, to: u16) -> Bus
    ensures { Does (tree.provided condition (tree.jmp to)) file ram rom result 2 }
{
    let b = do_conditional::condition(file, condition);
    if b {
        return jmp(file, ram, rom, to);
    }
    mach_tally::none()
}

fn call_if(file: &mut [u16; 14], ram: &mut [u8], rom: &[u8], condition: u8, to: u16) -> Bus
    ensures { Does (tree.provided condition (tree.card_call to)) file ram rom result 2 }
{
    let b = do_conditional::condition(file, condition);
    if b {
        return call(file, ram, rom, to);
    }
    mach_tally::none()
}

fn ret_if(file: &mut [u16; 14], ram: &mut [u8], rom: &[u8], condition: u8) -> Bus
    ensures { Does (tree.provided condition tree.card_ret) file ram rom result 2 }
{
    let b = do_conditional::condition(file, condition);
    if b {
        return ret(file, ram, rom);
    }
    mach_tally::none()
}

pub fn branch(file: &mut [u16; 14], ram: &mut [u8], rom: &[u8], i: CardBranch) -> Bus
    ensures { Does (tree.card_branch i) file ram rom result 2 }
{
    match i {
        CardBranch::Jmp { to } => jmp(file, ram, rom, to),
        CardBranch::JumpIf { condition, to } => jump_if(file, ram, rom, condition, to),
        CardBranch::Call { to } => call(file, ram, rom, to),
        CardBranch::CallIf { condition, to } => call_if(file, ram, rom, condition, to),
        CardBranch::Ret => ret(file, ram, rom),
        CardBranch::RetIf { condition } => ret_if(file, ram, rom, condition),
        CardBranch::Rst { number } => rst(file, ram, rom, number),
        CardBranch::Pchl => pchl(file, ram, rom),
    }
}
