// The stack and traps in code.
#![tactic(auto)]

ghost use Rattle.std.specs.Prelude.{◌≡◌, ℕ};
ghost use Rattle.sheet.specs.Traps as tree;
ghost use Rattle.mach_tally.specs.Lent.{Does, Takes};
ghost use Rattle.mach_stack.specs.Vector.{Fetches, Around};

use mach_memory::Loaded;
use mach_registers::{PC, PS, PSW, SP, SS};
use sheet::Bus;

pub fn push(file: &mut [u16; 14], ram: &mut [u8], rom: &[u8], v: u16) -> Bus
    ensures { Does (tree.push v) file ram rom result 2 }
{
    let sp = calc_word::minus16(file[SP], 2);
    let ss = file[SS];
    file[SP] = sp;
    mach_memory::store(true, ram, ss, sp, v)
}

pub fn pop(file: &mut [u16; 14], ram: &[u8], rom: &[u8]) -> Loaded
    ensures { Takes ℕ tree.pop file ram rom result.value result.bus 2 }
{
    let sp = file[SP];
    let ss = file[SS];
    file[SP] = calc_word::plus16(sp, 2);
    mach_memory::load(true, ram, rom, ss, sp)
}

pub fn push_ps_pc(file: &mut [u16; 14], ram: &mut [u8], rom: &[u8]) -> Bus
    ensures { Does tree.push_ps_pc file ram rom result 4 }
{
    let ps = file[PS];
    let pc = file[PC];
    let a = push(file, ram, rom, ps);
    let b = push(file, ram, rom, pc);
    mach_tally::both(a, b)
}

// PSW, PS and the PC then due go onto the stack; PSW becomes x once it is there.
fn save(file: &mut [u16; 14], ram: &mut [u8], rom: &[u8], x: u16) -> Bus
    ensures { Around tree.save x file ram rom result 6 }
{
    let old = file[PSW];
    let a = push(file, ram, rom, old);
    file[PSW] = x;
    let b = push_ps_pc(file, ram, rom);
    mach_tally::both(a, b)
}

// Where a vector points.
#[derive(Clone, Copy)]
struct Target {
    pc: u16,
    ps: u16,
    bus: Bus,
}

fn vector(ram: &[u8], rom: &[u8], v: u8) -> Target
    ensures { Fetches ram.now rom.now v result.pc result.ps result.bus }
{
    let at = 4 * (v as u16);
    let pc = mach_memory::load(true, ram, rom, 0, at);
    let ps = mach_memory::load(true, ram, rom, 0, at + 2);
    Target {
        pc: pc.value,
        ps: ps.value,
        bus: mach_tally::both(pc.bus, ps.bus),
    }
}

// Whether an instruction took a trap itself, and its accesses.
#[derive(Clone, Copy)]
pub struct Worked {
    pub trapped: bool,
    pub bus: Bus,
}

// To where a vector points, with PSW changed to x.
pub fn vectored(file: &mut [u16; 14], ram: &mut [u8], rom: &[u8], v: u8, x: u16) -> Bus
    ensures { Around (λ c. tree.vectored c v) x file ram rom result 8 }
{
    let at = vector(ram, rom, v);
    let b = save(file, ram, rom, x);
    file[PS] = at.ps;
    file[PC] = at.pc;
    mach_tally::both(at.bus, b)
}

pub fn trap(file: &mut [u16; 14], ram: &mut [u8], rom: &[u8], v: u8) -> Bus
    ensures { Does (tree.trap v) file ram rom result 8 }
{
    let x = calc_psw::enter(file[PSW]);
    vectored(file, ram, rom, v, x)
}
