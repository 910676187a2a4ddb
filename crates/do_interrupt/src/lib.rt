// BRK, BRKV, CHKIND.
#![tactic(auto)]

ghost use Rattle.std.specs.Prelude.{◌≡◌, Bool};
ghost use Rattle.std.specs.Int.Signed.{lt_z};
ghost use Rattle.sheet.specs.Width.{signed_of};
ghost use Rattle.sheet.specs.Interrupts as tree;
ghost use Rattle.mach_tally.specs.Lent.{Gives};

use calc_flags::{V, flag};
use mach_registers::PSW;
use mach_stack::Worked;
use sheet::{Address, Bus, Interrupt};

fn brk(file: &mut [u16; 14], ram: &mut [u8], rom: &[u8], v: u8) -> Worked
    ensures { Gives Bool (tree.brk v) file ram rom result.trapped result.bus 8 }
{
    let b = mach_stack::trap(file, ram, rom, v);
    Worked {
        trapped: true,
        bus: b,
    }
}

fn trap_if(file: &mut [u16; 14], ram: &mut [u8], rom: &[u8], b: bool, v: u8) -> Worked
    ensures { Gives Bool (tree.trap_if b v) file ram rom result.trapped result.bus 8 }
{
    if b {
        return brk(file, ram, rom, v);
    }
    Worked {
        trapped: false,
        bus: mach_tally::none(),
    }
}

fn brkv(file: &mut [u16; 14], ram: &mut [u8], rom: &[u8]) -> Worked
    ensures { Gives Bool tree.brkv file ram rom result.trapped result.bus 8 }
{
    let b = flag::<V>(file[PSW]);
    trap_if(file, ram, rom, b, 4)
}

// As signed numbers.
#[tactic(auto, using(std::proofs::lemmas::Int::ints), unfolding(sheet::specs::Width::signed_of))]
fn less(a: u16, b: u16) -> bool
    ensures { result ≡ lt_z (signed_of 32768 a) (signed_of 32768 b) }
{
    a.cast_signed() < b.cast_signed()
}

fn outside(v: u16, low: u16, high: u16) -> bool
    ensures { result ≡ tree.outside v low high }
{
    less(v, low) | less(high, v)
}

fn chkind(file: &mut [u16; 14], ram: &mut [u8], rom: &[u8], reg: u8, from: Address) -> Worked
    ensures { Gives Bool (tree.chkind reg from) file ram rom result.trapped result.bus 12 }
{
    let p = mach_operand::pair_at(file, ram, rom, from);
    let v = mach_registers::reg(true, file, reg);
    let b = outside(v, p.low, p.high);
    let t = trap_if(file, ram, rom, b, 5);
    Worked {
        bus: mach_tally::both(p.bus, t.bus),
        ..t
    }
}

pub fn interrupt(file: &mut [u16; 14], ram: &mut [u8], rom: &[u8], i: Interrupt) -> Worked
    ensures { Gives Bool (tree.interrupts i) file ram rom result.trapped result.bus 12 }
{
    match i {
        Interrupt::Brk3 => brk(file, ram, rom, 3),
        Interrupt::Brk { vector } => brk(file, ram, rom, vector),
        Interrupt::Brkv => brkv(file, ram, rom),
        Interrupt::Chkind { reg, from } => chkind(file, ram, rom, reg, from),
    }
}
