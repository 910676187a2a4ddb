// PUSH R and POP R: the eight general registers at once.
#![tactic(auto)]

ghost use Rattle.std.specs.Prelude.{ℕ};
ghost use Rattle.sheet.specs.Stack as tree;
ghost use Rattle.mach_tally.specs.Lent.{Does, Takes};
ghost use Rattle.do_push_r.specs.Parts.{push_two, push_four, pop_pointers, pop_general};

use mach_memory::Loaded;
use mach_registers::{AW, BP, BW, CW, DW, IX, IY, SP};
use sheet::Bus;

fn push_two(file: &mut [u16; 14], ram: &mut [u8], rom: &[u8], x: u16, y: u16) -> Bus
    ensures { Does (push_two x y) file ram rom result 4 }
{
    let a = mach_stack::push(file, ram, rom, x);
    let b = mach_stack::push(file, ram, rom, y);
    mach_tally::both(a, b)
}

fn push_four(
    file: &mut [u16; 14],
    ram: &mut [u8],
    rom: &[u8],
    a: u16,
    b: u16,
    c: u16,
    d: u16,
) -> Bus
    ensures { Does (push_four a b c d) file ram rom result 8 }
{
    let x = push_two(file, ram, rom, a, b);
    let y = push_two(file, ram, rom, c, d);
    mach_tally::both(x, y)
}

pub fn push_r(file: &mut [u16; 14], ram: &mut [u8], rom: &[u8]) -> Bus
    ensures { Does tree.push_r file ram rom result 16 }
{
    let aw = file[AW];
    let cw = file[CW];
    let dw = file[DW];
    let bw = file[BW];
    let sp = file[SP];
    let bp = file[BP];
    let ix = file[IX];
    let iy = file[IY];
    let x = push_four(file, ram, rom, aw, cw, dw, bw);
    let y = push_four(file, ram, rom, sp, bp, ix, iy);
    mach_tally::both(x, y)
}

// IY, IX and BP. The word that stands for SP is read and handed back.
fn pop_pointers(file: &mut [u16; 14], ram: &[u8], rom: &[u8]) -> Loaded
    ensures { Takes ℕ pop_pointers file ram rom result.value result.bus 8 }
{
    let iy = mach_stack::pop(file, ram, rom);
    file[IY] = iy.value;
    let ix = mach_stack::pop(file, ram, rom);
    file[IX] = ix.value;
    let bp = mach_stack::pop(file, ram, rom);
    file[BP] = bp.value;
    let sp = mach_stack::pop(file, ram, rom);
    Loaded {
        value: sp.value,
        bus: mach_tally::both(
            iy.bus,
            mach_tally::both(ix.bus, mach_tally::both(bp.bus, sp.bus)),
        ),
    }
}

fn pop_general(file: &mut [u16; 14], ram: &[u8], rom: &[u8]) -> Bus
    ensures { Takes Unit pop_general file ram rom tt result 8 }
{
    let bw = mach_stack::pop(file, ram, rom);
    file[BW] = bw.value;
    let dw = mach_stack::pop(file, ram, rom);
    file[DW] = dw.value;
    let cw = mach_stack::pop(file, ram, rom);
    file[CW] = cw.value;
    let aw = mach_stack::pop(file, ram, rom);
    file[AW] = aw.value;
    mach_tally::both(
        bw.bus,
        mach_tally::both(dw.bus, mach_tally::both(cw.bus, aw.bus)),
    )
}

pub fn pop_r(file: &mut [u16; 14], ram: &[u8], rom: &[u8]) -> Bus
    ensures { Takes Unit tree.pop_r file ram rom tt result 16 }
{
    let x = pop_pointers(file, ram, rom);
    let y = pop_general(file, ram, rom);
    mach_tally::both(x.bus, y)
}
