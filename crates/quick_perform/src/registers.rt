// What readings do with registers alone that is rarer: LDEA, XCH, MOV from a segment register, BR far.
ghost use Rattle.sheet.specs.declared.Place.TheVariants.{Register};
ghost use Rattle.sheet.specs.Traps.{jump_far};
ghost use Rattle.sheet.specs.Transfer.{ldea as ldea_of, xch as xch_of, from_segment};
ghost use Rattle.sheet.specs.Contract.{OnFile};
ghost use Rattle.quick_place.specs.Packed.{rm_of, reg_of, seg_of, word_of, disp_of, imm_of, address_of};

use quick_place::Reading;

// LDEA.
pub fn ldea(file: &mut [u16; 14], r: Reading)
    ensures { OnFile Unit (ldea_of (reg_of r.bits) (address_of r.bits)) file.old tt file.new }
{
    let o = quick_do::offset(file, r);
    mach_registers::set_reg(true, file, r.reg(), o);
}

// XCH of two registers.
pub fn xch(file: &mut [u16; 14], r: Reading)
    ensures { OnFile Unit (xch_of (word_of r.bits) (reg_of r.bits) (Register (rm_of r.bits))) file.old tt file.new }
{
    let word = r.word();
    let m = r.rm();
    let n = r.reg();
    let x = mach_registers::reg(word, file, m);
    let y = mach_registers::reg(word, file, n);
    mach_registers::set_reg(word, file, m, y);
    mach_registers::set_reg(word, file, n, x);
}

// MOV reg16,sreg.
pub fn from_segment(file: &mut [u16; 14], r: Reading)
    ensures { OnFile Unit (from_segment (Register (rm_of r.bits)) (seg_of r.bits)) file.old tt file.new }
{
    let v = mach_registers::base(file, r.segment());
    mach_registers::set_reg(true, file, r.rm(), v);
}

// BR far.
pub fn br_far(file: &mut [u16; 14], r: Reading)
    ensures { OnFile Unit (jump_far (imm_of r.bits) (disp_of r.bits)) file.old tt file.new }
{
    mach_jump::jump_far(file, r.imm(), r.disp());
}
