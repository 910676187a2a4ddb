// The stack of the 8080 mode, at DS0:BP: PUSH, POP, XTHL.
#![tactic(auto)]

ghost use Rattle.std.specs.Prelude.{◌≡◌, ℕ};
ghost use Rattle.sheet.specs.CardStack as tree;
ghost use Rattle.mach_tally.specs.Lent.{Does, Takes};

use mach_memory::Loaded;
use mach_registers::{AW, BP, BW, DS0, PSW};
use sheet::Bus;
use sheet::cards::CardStack;

// As mach_stack has it, of two other registers: one function for both would need a contract beside the four that say which tree each is.
pub fn push(file: &mut [u16; 14], ram: &mut [u8], rom: &[u8], v: u16) -> Bus
    ensures { Does (tree.card_push v) file ram rom result 2 }
{
    let bp = calc_word::minus16(file[BP], 2);
    let segment = file[DS0];
    file[BP] = bp;
    mach_memory::store(true, ram, segment, bp, v)
}

pub fn pop(file: &mut [u16; 14], ram: &[u8], rom: &[u8]) -> Loaded
    ensures { Takes ℕ tree.card_pop file ram rom result.value result.bus 2 }
{
    let bp = file[BP];
    let ds0 = file[DS0];
    file[BP] = calc_word::plus16(bp, 2);
    mach_memory::load(true, ram, rom, ds0, bp)
}

fn push_pair(file: &mut [u16; 14], ram: &mut [u8], rom: &[u8], pair: u8) -> Bus
    ensures { Does (tree.push_pair pair) file ram rom result 2 }
{
    let v = mach_registers::reg(true, file, pair);
    push(file, ram, rom, v)
}

fn pop_pair(file: &mut [u16; 14], ram: &mut [u8], rom: &[u8], pair: u8) -> Bus
    ensures { Does (tree.pop_pair pair) file ram rom result 2 }
{
    let v = pop(file, ram, rom);
    mach_registers::set_reg(true, file, pair, v.value);
    v.bus
}

// AL above PSW's low byte.
fn push_al_psw(file: &mut [u16; 14], ram: &mut [u8], rom: &[u8]) -> Bus
    ensures { Does tree.push_al_psw file ram rom result 2 }
{
    let v = file[AW] % 256 * 256 + file[PSW] % 256;
    push(file, ram, rom, v)
}

// The five flags and AL.
fn pop_al_psw(file: &mut [u16; 14], ram: &mut [u8], rom: &[u8]) -> Bus
    ensures { Does tree.pop_al_psw file ram rom result 2 }
{
    let v = pop(file, ram, rom);
    file[PSW] = calc_psw::from_ah(v.value % 256, file[PSW]);
    mach_registers::set_reg(false, file, 0, v.value / 256);
    v.bus
}

fn xthl(file: &mut [u16; 14], ram: &mut [u8], rom: &[u8]) -> Bus
    ensures { Does tree.xthl file ram rom result 4 }
{
    let ds0 = file[DS0];
    let bp = file[BP];
    let bw = file[BW];
    let v = mach_memory::load(true, ram, rom, ds0, bp);
    let b = mach_memory::store(true, ram, ds0, bp, bw);
    file[BW] = v.value;
    mach_tally::both(v.bus, b)
}

pub fn stack(file: &mut [u16; 14], ram: &mut [u8], rom: &[u8], i: CardStack) -> Bus
    ensures { Does (tree.card_stack i) file ram rom result 4 }
{
    match i {
        CardStack::Push { pair } => push_pair(file, ram, rom, pair),
        CardStack::PushPsw => push_al_psw(file, ram, rom),
        CardStack::Pop { pair } => pop_pair(file, ram, rom, pair),
        CardStack::PopPsw => pop_al_psw(file, ram, rom),
        CardStack::Xthl => xthl(file, ram, rom),
    }
}
