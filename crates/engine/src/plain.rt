// The groups of instructions that take no trap of their own, use no port and do not halt.
ghost use Rattle.sheet.specs.Execute.{computing, moving};
ghost use Rattle.mach_tally.specs.Lent.{Does};

use sheet::{Bus, Compute, Move};

pub fn compute(file: &mut [u16; 14], ram: &mut [u8], rom: &[u8], i: Compute) -> Bus
    ensures { Does (computing i) file ram rom result 384 }
{
    match i {
        Compute::Calculates(t) => do_arith::calculate(file, ram, rom, t),
        Compute::Converts(t) => {
            do_convert::convert(file, t);
            mach_tally::none()
        }
        Compute::Shifts {
            kind,
            word,
            to,
            places,
        } => do_shift::shift(file, ram, rom, kind, word, to, places),
        Compute::Bits {
            op,
            word,
            to,
            number,
        } => do_bit::bits(file, ram, rom, op, word, to, number),
        Compute::Decimals(t) => do_decimal::decimal(file, ram, rom, t),
        Compute::Fields(t) => do_field::field(file, ram, rom, t),
    }
}

pub fn moves(file: &mut [u16; 14], ram: &mut [u8], rom: &[u8], i: Move) -> Bus
    ensures { Does (moving i) file ram rom result 1020 }
{
    match i {
        Move::Transfers(t) => do_transfer::transfer(file, ram, rom, t),
        Move::Stacks(t) => do_stack::stack(file, ram, rom, t),
        Move::Branches(t) => do_branch::branch(file, ram, rom, t),
        Move::Tests(t) => {
            do_conditional::conditional(file, t);
            mach_tally::none()
        }
    }
}
