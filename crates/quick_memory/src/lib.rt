// What readings do that touch memory.
#![tactic(auto)]

ghost use Rattle.sheet.specs.declared.Place.TheVariants.{Register, Memory};
ghost use Rattle.sheet.specs.declared.Source.TheVariants.{Held, Immediate};
ghost use Rattle.sheet.specs.declared.Spot.TheVariants.{InMemory};
ghost use Rattle.sheet.specs.FirstByte.{operation_at};
ghost use Rattle.sheet.specs.Arithmetic.{two, one, conclude};
ghost use Rattle.sheet.specs.Transfer.{mov, load_acc, store_acc};
ghost use Rattle.sheet.specs.Stack.{push_register, pop_place};
ghost use Rattle.sheet.specs.Branch.{call_near, ret as ret_of};
ghost use Rattle.mach_tally.specs.Lent.{Does, Takes, Fills};
ghost use Rattle.quick_place.specs.Packed.{op_of, unary_at, word_of, rm_of, reg_of, disp_of, imm_of, address_of};
ghost use Rattle.quick_memory.specs.Settled.{Moved, Operated};

use mach_registers::{PC, PSW, SP, SS};
use quick_place::Reading;
use sheet::{Bus, Operation};

// ---- MOV

fn load(file: &mut [u16; 14], ram: &[u8], rom: &[u8], r: Reading, n: u8) -> Bus
    ensures { Takes Unit (mov (word_of r.bits) (Register n) (Held (Memory (address_of r.bits)))) file ram rom tt result 6 }
{
    let word = r.word();
    let g = quick_do::base(file, r);
    let o = quick_do::offset(file, r);
    let v = mach_memory::read(word, ram, rom, g, o);
    mach_registers::set_reg(word, file, n, v);
    mach_tally::of_access(word, o)
}

// MOV reg,mem.
pub fn mov_rm(file: &mut [u16; 14], ram: &[u8], rom: &[u8], r: Reading) -> Bus
    ensures { Takes Unit (mov (word_of r.bits) (Register (reg_of r.bits)) (Held (Memory (address_of r.bits)))) file ram rom tt result 6 }
{
    load(file, ram, rom, r, r.reg())
}

// MOV acc,dmem.
pub fn load_acc(file: &mut [u16; 14], ram: &[u8], rom: &[u8], r: Reading) -> Bus
    ensures { Takes Unit (load_acc (word_of r.bits) (address_of r.bits)) file ram rom tt result 6 }
{
    load(file, ram, rom, r, 0)
}

fn mov_to(file: &[u16; 14], ram: &mut [u8], rom: &[u8], r: Reading, v: u16) -> Bus
    ensures { Moved r.bits v file.now ram.old rom.now ram.new result }
{
    let word = r.word();
    let g = quick_do::base(file, r);
    let o = quick_do::offset(file, r);
    mach_memory::store(word, ram, g, o, v)
}

// MOV mem,reg.
pub fn mov_mr(file: &[u16; 14], ram: &mut [u8], rom: &[u8], r: Reading) -> Bus
    ensures { Fills Unit (mov (word_of r.bits) (Memory (address_of r.bits)) (Held (Register (reg_of r.bits)))) file ram rom tt result 6 }
{
    let v = mach_registers::reg(r.word(), file, r.reg());
    mov_to(file, ram, rom, r, v)
}

// MOV dmem,acc.
pub fn store_acc(file: &[u16; 14], ram: &mut [u8], rom: &[u8], r: Reading) -> Bus
    ensures { Fills Unit (store_acc (word_of r.bits) (address_of r.bits)) file ram rom tt result 6 }
{
    let v = mach_registers::reg(r.word(), file, 0);
    mov_to(file, ram, rom, r, v)
}

// MOV mem,imm.
pub fn mov_mi(file: &[u16; 14], ram: &mut [u8], rom: &[u8], r: Reading) -> Bus
    ensures { Fills Unit (mov (word_of r.bits) (Memory (address_of r.bits)) (Immediate (imm_of r.bits))) file ram rom tt result 6 }
{
    mov_to(file, ram, rom, r, r.imm())
}

// ---- operations

// An operation on a register and memory.
pub fn alu_rm(file: &mut [u16; 14], ram: &[u8], rom: &[u8], r: Reading) -> Bus
    ensures { Takes Unit (two (operation_at (op_of r.bits)) (word_of r.bits) (Register (reg_of r.bits)) (Held (Memory (address_of r.bits))))
        file ram rom tt result 6 }
{
    let word = r.word();
    let g = quick_do::base(file, r);
    let o = quick_do::offset(file, r);
    let b = mach_memory::read(word, ram, rom, g, o);
    quick_do::alu_to(file, r.op(), word, r.reg(), b);
    mach_tally::of_access(word, o)
}

// CMP drops the difference.
fn put(
    file: &[u16; 14],
    ram: &mut [u8],
    rom: &[u8],
    op: Operation,
    word: bool,
    g: u16,
    o: u16,
    v: u16,
) -> Bus
    ensures { Fills Unit (conclude op word (InMemory g o) v) file ram rom tt result 2 }
{
    match op {
        Operation::Cmp => mach_tally::none(),
        _ => mach_memory::store(word, ram, g, o, v),
    }
}

fn alu_at(file: &mut [u16; 14], ram: &mut [u8], rom: &[u8], r: Reading, b: u16) -> Bus
    ensures { Operated r.bits b file.old ram.old rom.now file.new ram.new result }
{
    let word = r.word();
    let g = quick_do::base(file, r);
    let o = quick_do::offset(file, r);
    let a = mach_memory::read(word, ram, rom, g, o);
    let op = r.op();
    let x = calc_arith::operate(op, word, a, b, file[PSW]);
    file[PSW] = x.psw;
    let n = mach_tally::of_access(word, o);
    mach_tally::both(n, put(file, ram, rom, op, word, g, o, x.value))
}

// An operation on memory and a register.
pub fn alu_mr(file: &mut [u16; 14], ram: &mut [u8], rom: &[u8], r: Reading) -> Bus
    ensures { Does (two (operation_at (op_of r.bits)) (word_of r.bits) (Memory (address_of r.bits)) (Held (Register (reg_of r.bits))))
        file ram rom result 6 }
{
    let b = mach_registers::reg(r.word(), file, r.reg());
    alu_at(file, ram, rom, r, b)
}

// An operation on memory and an immediate.
pub fn alu_mi(file: &mut [u16; 14], ram: &mut [u8], rom: &[u8], r: Reading) -> Bus
    ensures { Does (two (operation_at (op_of r.bits)) (word_of r.bits) (Memory (address_of r.bits)) (Immediate (imm_of r.bits))) file ram rom result 6 }
{
    alu_at(file, ram, rom, r, r.imm())
}

// INC, DEC, NOT, NEG of memory.
pub fn one_m(file: &mut [u16; 14], ram: &mut [u8], rom: &[u8], r: Reading) -> Bus
    ensures { Does (one (unary_at (op_of r.bits)) (word_of r.bits) (Memory (address_of r.bits))) file ram rom result 6 }
{
    let word = r.word();
    let g = quick_do::base(file, r);
    let o = quick_do::offset(file, r);
    let a = mach_memory::read(word, ram, rom, g, o);
    let x = calc_arith::one(r.op(), word, a, file[PSW]);
    file[PSW] = x.psw;
    let n = mach_tally::of_access(word, o);
    mach_tally::both(n, mach_memory::store(word, ram, g, o, x.value))
}

// ---- the stack and branches

// PUSH reg. SP falls before the register is read.
pub fn push_r(file: &mut [u16; 14], ram: &mut [u8], rom: &[u8], r: Reading) -> Bus
    ensures { Does (push_register (rm_of r.bits)) file ram rom result 6 }
{
    file[SP] = calc_word::minus16(file[SP], 2);
    let ss = file[SS];
    let sp = file[SP];
    let v = mach_registers::reg(true, file, r.rm());
    mach_memory::store(true, ram, ss, sp, v)
}

// POP reg.
pub fn pop_r(file: &mut [u16; 14], ram: &[u8], rom: &[u8], r: Reading) -> Bus
    ensures { Takes Unit (pop_place (Register (rm_of r.bits))) file ram rom tt result 6 }
{
    let sp = file[SP];
    let ss = file[SS];
    file[SP] = calc_word::plus16(sp, 2);
    let v = mach_memory::read(true, ram, rom, ss, sp);
    mach_registers::set_reg(true, file, r.rm(), v);
    mach_tally::of_access(true, sp)
}

// CALL near.
pub fn call(file: &mut [u16; 14], ram: &mut [u8], rom: &[u8], r: Reading) -> Bus
    ensures { Does (call_near (disp_of r.bits)) file ram rom result 6 }
{
    let pc = file[PC];
    let sp = calc_word::minus16(file[SP], 2);
    let ss = file[SS];
    file[SP] = sp;
    let n = mach_memory::store(true, ram, ss, sp, pc);
    mach_jump::jump(file, r.disp());
    n
}

// RET.
pub fn ret(file: &mut [u16; 14], ram: &[u8], rom: &[u8]) -> Bus
    ensures { Takes Unit ret_of file ram rom tt result 6 }
{
    let sp = file[SP];
    let ss = file[SS];
    file[SP] = calc_word::plus16(sp, 2);
    file[PC] = mach_memory::read(true, ram, rom, ss, sp);
    mach_tally::of_access(true, sp)
}
