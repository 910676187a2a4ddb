// Addition, subtraction, comparison, logic, increment, decrement, complement.
#![tactic(auto)]

ghost use Rattle.std.specs.Prelude.{◌≡◌, ℕ};
ghost use Rattle.sheet.specs.Arithmetic as tree;
ghost use Rattle.sheet.specs.Arithmetic.{calculate};
ghost use Rattle.mach_tally.specs.Lent.{Does};

use mach_registers::PSW;
use sheet::{Arithmetic, Bus, Operation, Place, Source, Spot, Unary};

// CMP drops the difference.
fn conclude(
    file: &mut [u16; 14],
    ram: &mut [u8],
    rom: &[u8],
    op: Operation,
    word: bool,
    spot: Spot,
    v: u16,
) -> Bus
    ensures { Does (tree.conclude op word spot v) file ram rom result 2 }
{
    match op {
        Operation::Cmp => mach_tally::none(),
        _ => mach_operand::deposit(word, file, ram, rom, spot, v),
    }
}

fn two(
    file: &mut [u16; 14],
    ram: &mut [u8],
    rom: &[u8],
    op: Operation,
    word: bool,
    to: Place,
    from: Source,
) -> Bus
    ensures { Does (tree.two op word to from) file ram rom result 6 }
{
    let spot = mach_operand::locate(file, to);
    let a = mach_operand::fetch(word, file, ram, rom, spot);
    let b = mach_operand::source_value(word, file, ram, rom, from);
    let x = calc_arith::operate(op, word, a.value, b.value, file[PSW]);
    file[PSW] = x.psw;
    let c = conclude(file, ram, rom, op, word, spot, x.value);
    mach_tally::three(a.bus, b.bus, c)
}

fn one(file: &mut [u16; 14], ram: &mut [u8], rom: &[u8], op: Unary, word: bool, to: Place) -> Bus
    ensures { Does (tree.one op word to) file ram rom result 6 }
{
    let spot = mach_operand::locate(file, to);
    let a = mach_operand::fetch(word, file, ram, rom, spot);
    let x = calc_arith::one(op, word, a.value, file[PSW]);
    file[PSW] = x.psw;
    let b = mach_operand::deposit(word, file, ram, rom, spot, x.value);
    mach_tally::both(a.bus, b)
}

fn test(
    file: &mut [u16; 14],
    ram: &mut [u8],
    rom: &[u8],
    word: bool,
    left: Place,
    right: Source,
) -> Bus
    ensures { Does (tree.test word left right) file ram rom result 6 }
{
    let a = mach_operand::value_at(word, file, ram, rom, left);
    let b = mach_operand::source_value(word, file, ram, rom, right);
    let x = calc_arith::logic(word, a.value & b.value, file[PSW]);
    file[PSW] = x.psw;
    mach_tally::both(a.bus, b.bus)
}

pub fn calculate(file: &mut [u16; 14], ram: &mut [u8], rom: &[u8], i: Arithmetic) -> Bus
    ensures { Does (calculate i) file ram rom result 6 }
{
    match i {
        Arithmetic::Two { op, word, to, from } => two(file, ram, rom, op, word, to, from),
        Arithmetic::One { op, word, to } => one(file, ram, rom, op, word, to),
        Arithmetic::Test { word, left, right } => test(file, ram, rom, word, left, right),
    }
}
