// Shifts and rotates of an operand.
#![tactic(auto)]

ghost use Rattle.sheet.specs.declared.Places.TheVariants.{One, Counted};
ghost use Rattle.sheet.specs.Shift as tree;
ghost use Rattle.mach_tally.specs.Lent.{Does};

use mach_registers::PSW;
use sheet::{Amount, Bus, Place, Places, Shift, Spot};

// The forms whose count is the fixed 1.
fn by_one(
    file: &mut [u16; 14],
    ram: &mut [u8],
    rom: &[u8],
    kind: Shift,
    word: bool,
    to: Place,
) -> Bus
    ensures { Does (tree.shift kind word to One) file ram rom result 4 }
{
    let spot = mach_operand::locate(file, to);
    let x = mach_operand::fetch(word, file, ram, rom, spot);
    let cy = calc_shift::carry_in(kind, file[PSW]);
    let y = calc_shift::shift_one(kind, word, x.value, cy, file[PSW]);
    file[PSW] = y.psw;
    let b = mach_operand::deposit(word, file, ram, rom, spot, y.value);
    mach_tally::both(x.bus, b)
}

// x by a count; 0 changes no flag, and x is written all the same.
fn by_count(
    file: &mut [u16; 14],
    ram: &mut [u8],
    rom: &[u8],
    kind: Shift,
    word: bool,
    spot: Spot,
    x: u16,
    n: u8,
) -> Bus
    ensures { Does (tree.shift_by kind word spot x n) file ram rom result 2 }
{
    if n < 1 {
        return mach_operand::deposit(word, file, ram, rom, spot, x);
    }
    let cy = calc_shift::carry_in(kind, file[PSW]);
    let y = calc_shift::shift_many(kind, word, n, x, cy, file[PSW]);
    file[PSW] = y.psw;
    mach_operand::deposit(word, file, ram, rom, spot, y.value)
}

fn by_amount(
    file: &mut [u16; 14],
    ram: &mut [u8],
    rom: &[u8],
    kind: Shift,
    word: bool,
    to: Place,
    count: Amount,
) -> Bus
    ensures { Does (tree.shift kind word to (Counted count)) file ram rom result 4 }
{
    let n = mach_operand::amount(file, count);
    let spot = mach_operand::locate(file, to);
    let x = mach_operand::fetch(word, file, ram, rom, spot);
    let b = by_count(file, ram, rom, kind, word, spot, x.value, n);
    mach_tally::both(x.bus, b)
}

pub fn shift(
    file: &mut [u16; 14],
    ram: &mut [u8],
    rom: &[u8],
    kind: Shift,
    word: bool,
    to: Place,
    places: Places,
) -> Bus
    ensures { Does (tree.shift kind word to places) file ram rom result 4 }
{
    match places {
        Places::One => by_one(file, ram, rom, kind, word, to),
        Places::Counted(count) => by_amount(file, ram, rom, kind, word, to, count),
    }
}
