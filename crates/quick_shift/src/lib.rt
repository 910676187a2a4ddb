// What readings do that shift or rotate.
#![tactic(auto)]

ghost use Rattle.sheet.specs.declared.Place.TheVariants.{Register, Memory};
ghost use Rattle.sheet.specs.declared.Places.TheVariants.{One};
ghost use Rattle.sheet.specs.Shift.{shift};
ghost use Rattle.sheet.specs.Contract.{OnFile};
ghost use Rattle.mach_tally.specs.Lent.{Does};
ghost use Rattle.quick_place.specs.Packed.{op_of, shift_at, word_of, rm_of, address_of};

use mach_registers::PSW;
use quick_place::Reading;
use sheet::Bus;

// A register by 1.
pub fn one_r(file: &mut [u16; 14], r: Reading)
    ensures { OnFile Unit (shift (shift_at (op_of r.bits)) (word_of r.bits) (Register (rm_of r.bits)) One) file.old tt file.new }
{
    let kind = r.op();
    let word = r.word();
    let n = r.rm();
    let x = mach_registers::reg(word, file, n);
    let cy = calc_shift::carry_in(kind, file[PSW]);
    let y = calc_shift::shift_one(kind, word, x, cy, file[PSW]);
    file[PSW] = y.psw;
    mach_registers::set_reg(word, file, n, y.value);
}

// Memory by 1.
pub fn one_m(file: &mut [u16; 14], ram: &mut [u8], rom: &[u8], r: Reading) -> Bus
    ensures { Does (shift (shift_at (op_of r.bits)) (word_of r.bits) (Memory (address_of r.bits)) One) file ram rom result 6 }
{
    let kind = r.op();
    let word = r.word();
    let g = quick_do::base(file, r);
    let o = quick_do::offset(file, r);
    let x = mach_memory::read(word, ram, rom, g, o);
    let cy = calc_shift::carry_in(kind, file[PSW]);
    let y = calc_shift::shift_one(kind, word, x, cy, file[PSW]);
    file[PSW] = y.psw;
    let n = mach_tally::of_access(word, o);
    mach_tally::both(n, mach_memory::store(word, ram, g, o, y.value))
}
