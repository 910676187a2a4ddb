// What readings do that need the registers alone, and the addresses of the others.
#![tactic(auto)]

ghost use Rattle.std.specs.Prelude.{◌≡◌, ◌≤◌, ◌<◌};
ghost use Rattle.sheet.specs.declared.Place.TheVariants.{Register};
ghost use Rattle.sheet.specs.declared.Source.TheVariants.{Held, Immediate};
ghost use Rattle.sheet.specs.declared.Spot.TheVariants.{InRegister};
ghost use Rattle.sheet.specs.Registers.{file_of, read_reg};
ghost use Rattle.sheet.specs.Operand.{form_at, form_offset, offset_of, base_of};
ghost use Rattle.sheet.specs.FirstByte.{operation_at};
ghost use Rattle.std.specs.Int.Bits.{bit_and};
ghost use Rattle.sheet.specs.Act.{affect};
ghost use Rattle.sheet.specs.Arithmetic as tree;
ghost use Rattle.sheet.specs.Transfer.{mov};
ghost use Rattle.sheet.specs.Branch.{jump, branch_if, dbnz as dbnz_of};
ghost use Rattle.quick_place.specs.Packed.{op_of, unary_at, cond_of, word_of, rm_of, reg_of, disp_of, imm_of, address_of};
ghost use Rattle.quick_do.specs.Settle.{Sets, settle};

use mach_registers::{CW, PSW};
use quick_place::{NO_FORM, Reading};
use sheet::Operation;

// ---- addresses

// A form's base register.
fn base_at(form: u8) -> usize
    ensures { (result ≡ (form_at form).base) × (result ≤ 7) }
{
    match form % 8 {
        0 => 3,
        1 => 3,
        2 => 5,
        3 => 5,
        4 => 6,
        5 => 7,
        6 => 5,
        _ => 3,
    }
}

fn form_offset(file: &[u16; 14], form: u8, disp: u16) -> u16
    ensures { result ≡ form_offset (file_of file.now) (form_at form) disp }
{
    let b = base_at(form);
    let low = calc_word::plus16(file[b], disp);
    if form % 8 < 4 {
        let i = 6 + usize::from(form % 2);
        return calc_word::plus16(low, file[i]);
    }
    low
}

pub fn offset(file: &[u16; 14], r: Reading) -> u16
    ensures { result ≡ offset_of (file_of file.now) (address_of r.bits) }
{
    let disp = r.disp();
    let form = r.rm();
    if form == NO_FORM {
        return disp;
    }
    form_offset(file, form, disp)
}

pub fn base(file: &[u16; 14], r: Reading) -> u16
    ensures { result ≡ base_of (file_of file.now) (address_of r.bits) }
{
    mach_registers::base(file, r.segment())
}

// ---- operations

// CMP drops the difference.
fn conclude(file: &mut [u16; 14], op: Operation, word: bool, n: u8, v: u16)
    ensures { Sets (tree.conclude op word (InRegister n) v) file }
{
    match op {
        Operation::Cmp => {}
        _ => mach_registers::set_reg(word, file, n, v),
    }
}

// An operation on a register and a number.
pub fn alu_to(file: &mut [u16; 14], op: Operation, word: bool, to: u8, b: u16)
    ensures { Sets (settle op word (InRegister to) (read_reg word (file_of file.old) to) b) file }
{
    let a = mach_registers::reg(word, file, to);
    let x = calc_arith::operate(op, word, a, b, file[PSW]);
    file[PSW] = x.psw;
    conclude(file, op, word, to, x.value);
}

// An operation on two registers.
pub fn alu_rr(file: &mut [u16; 14], r: Reading)
    ensures { Sets (tree.two (operation_at (op_of r.bits)) (word_of r.bits) (Register (rm_of r.bits)) (Held (Register (reg_of r.bits)))) file }
{
    let word = r.word();
    let b = mach_registers::reg(word, file, r.reg());
    alu_to(file, r.op(), word, r.rm(), b);
}

// MOV reg,reg.
pub fn mov_rr(file: &mut [u16; 14], r: Reading)
    ensures { Sets (mov (word_of r.bits) (Register (rm_of r.bits)) (Held (Register (reg_of r.bits)))) file }
{
    let word = r.word();
    let v = mach_registers::reg(word, file, r.reg());
    mach_registers::set_reg(word, file, r.rm(), v);
}

// MOV reg,imm.
pub fn mov_ri(file: &mut [u16; 14], r: Reading)
    ensures { Sets (mov (word_of r.bits) (Register (rm_of r.bits)) (Immediate (imm_of r.bits))) file }
{
    let word = r.word();
    mach_registers::set_reg(word, file, r.rm(), r.imm());
}

// A conditional branch.
pub fn branch_if(file: &mut [u16; 14], r: Reading)
    ensures { Sets (branch_if (cond_of r.bits) (disp_of r.bits)) file }
{
    do_conditional::branch_if(file, r.condition(), r.disp());
}

// An operation on a register and an immediate.
pub fn alu_ri(file: &mut [u16; 14], r: Reading)
    ensures { Sets (tree.two (operation_at (op_of r.bits)) (word_of r.bits) (Register (rm_of r.bits)) (Immediate (imm_of r.bits))) file }
{
    let word = r.word();
    alu_to(file, r.op(), word, r.rm(), r.imm());
}

// INC, DEC, NOT, NEG of a register.
pub fn one_r(file: &mut [u16; 14], r: Reading)
    ensures { Sets (tree.one (unary_at (op_of r.bits)) (word_of r.bits) (Register (rm_of r.bits))) file }
{
    let word = r.word();
    let n = r.rm();
    let a = mach_registers::reg(word, file, n);
    let x = calc_arith::one(r.op(), word, a, file[PSW]);
    file[PSW] = x.psw;
    mach_registers::set_reg(word, file, n, x.value);
}

// BR near and short.
pub fn br(file: &mut [u16; 14], r: Reading)
    ensures { Sets (jump (disp_of r.bits)) file }
{
    mach_jump::jump(file, r.disp());
}

// DBNZ.
pub fn dbnz(file: &mut [u16; 14], r: Reading)
    ensures { Sets (dbnz_of (disp_of r.bits)) file }
{
    let cw = calc_word::minus16(file[CW], 1);
    file[CW] = cw;
    if cw != 0 {
        mach_jump::jump(file, r.disp());
    }
}

// The flags of TEST.
pub fn test(file: &mut [u16; 14], word: bool, a: u16, b: u16)
    ensures { Sets (affect (tree.logical word (bit_and a b)).column) file }
{
    let x = calc_arith::logic(word, a & b, file[PSW]);
    file[PSW] = x.psw;
}

// TEST of two registers.
pub fn test_rr(file: &mut [u16; 14], r: Reading)
    ensures { Sets (tree.test (word_of r.bits) (Register (rm_of r.bits)) (Held (Register (reg_of r.bits)))) file }
{
    let word = r.word();
    let a = mach_registers::reg(word, file, r.rm());
    let b = mach_registers::reg(word, file, r.reg());
    test(file, word, a, b);
}

// TEST of a register and an immediate.
pub fn test_ri(file: &mut [u16; 14], r: Reading)
    ensures { Sets (tree.test (word_of r.bits) (Register (rm_of r.bits)) (Immediate (imm_of r.bits))) file }
{
    let word = r.word();
    let a = mach_registers::reg(word, file, r.rm());
    test(file, word, a, r.imm());
}
