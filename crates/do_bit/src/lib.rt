// TEST1, CLR1, SET1, NOT1 on one bit of an operand.
#![tactic(auto)]

ghost use Rattle.sheet.specs.Operand.{deposit};
ghost use Rattle.sheet.specs.Bits as tree;
ghost use Rattle.mach_tally.specs.Lent.{Does};

use mach_registers::PSW;
use sheet::{Amount, Bit, Bus, Place, Spot};

// Writes x with its bit n as given.
fn write_bit(
    file: &mut [u16; 14],
    ram: &mut [u8],
    rom: &[u8],
    word: bool,
    spot: Spot,
    x: u16,
    n: u8,
    b: bool,
) -> Bus
    ensures { Does (deposit word spot (tree.with_bit x (tree.bit_number word n) b)) file ram rom result 2 }
{
    let v = calc_bits::with_bit(word, x, n, b);
    mach_operand::deposit(word, file, ram, rom, spot, v)
}

fn bit_done(
    file: &mut [u16; 14],
    ram: &mut [u8],
    rom: &[u8],
    op: Bit,
    word: bool,
    spot: Spot,
    x: u16,
    n: u8,
) -> Bus
    ensures { Does (tree.bit_done op word spot x (tree.bit_number word n)) file ram rom result 2 }
{
    match op {
        Bit::Test1 => {
            file[PSW] = calc_bits::after_test(word, x, n, file[PSW]);
            mach_tally::none()
        }
        Bit::Clr1 => write_bit(file, ram, rom, word, spot, x, n, false),
        Bit::Set1 => write_bit(file, ram, rom, word, spot, x, n, true),
        Bit::Not1 => {
            let b = calc_bits::bit_at(word, x, n);
            write_bit(file, ram, rom, word, spot, x, n, !b)
        }
    }
}

pub fn bits(
    file: &mut [u16; 14],
    ram: &mut [u8],
    rom: &[u8],
    op: Bit,
    word: bool,
    to: Place,
    number: Amount,
) -> Bus
    ensures { Does (tree.bits op word to number) file ram rom result 4 }
{
    let n = mach_operand::amount(file, number);
    let spot = mach_operand::locate(file, to);
    let x = mach_operand::fetch(word, file, ram, rom, spot);
    let b = bit_done(file, ram, rom, op, word, spot, x.value, n);
    mach_tally::both(x.bus, b)
}
