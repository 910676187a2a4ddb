// MULU, MUL, DIVU, DIV. Unsigned and signed differ in the function that calculates, which as a parameter would bring its contract into theirs.
#![tactic(auto)]

ghost use Rattle.std.specs.Prelude.{◌≡◌, Bool};
ghost use Rattle.sheet.specs.Registers.{file_of};
ghost use Rattle.sheet.specs.Multiply as sheet;
ghost use Rattle.sheet.specs.Contract.{OnFile};
ghost use Rattle.mach_tally.specs.Lent.{Gives, Takes};
ghost use Rattle.do_multiply.specs.Within.{Held, Within};

use mach_registers::{AW, DW, PSW};
use mach_stack::Worked;
use sheet::{Bus, Multiply, Place, Product, Quotient};

// A product of bytes goes to AW, one of words to DW and AW.
fn set_product(file: &mut [u16; 14], word: bool, x: u32)
    ensures { OnFile Unit (sheet.set_product word x) file.old tt file.new }
{
    file[AW] = (x % 65536) as u16;
    if word {
        file[DW] = (x / 65536) as u16;
    }
}

fn multiplied(file: &mut [u16; 14], word: bool, p: Product)
    ensures { OnFile Unit (sheet.multiplied word p) file.old tt file.new }
{
    file[PSW] = calc_multiply::product_psw(p, file[PSW]);
    set_product(file, word, p.bits);
}

fn mulu(file: &mut [u16; 14], ram: &[u8], rom: &[u8], word: bool, by: Place) -> Bus
    ensures { Takes Unit (sheet.mulu word by) file ram rom tt result 2 }
{
    let b = mach_operand::value_at(word, file, ram, rom, by);
    let a = mach_registers::reg(word, file, 0);
    let p = calc_multiply::unsigned_product(word, a, b.value);
    multiplied(file, word, p);
    b.bus
}

fn mul(file: &mut [u16; 14], ram: &[u8], rom: &[u8], word: bool, by: Place) -> Bus
    ensures { Takes Unit (sheet.mul word by) file ram rom tt result 2 }
{
    let b = mach_operand::value_at(word, file, ram, rom, by);
    let a = mach_registers::reg(word, file, 0);
    let p = calc_multiply::signed_product(word, a, b.value);
    multiplied(file, word, p);
    b.bus
}

// MUL with an immediate: the lower 16 bits alone.
fn mul_by(file: &mut [u16; 14], ram: &[u8], rom: &[u8], reg: u8, from: Place, by: u16) -> Bus
    ensures { Takes Unit (sheet.mul_by reg from by) file ram rom tt result 2 }
{
    let a = mach_operand::value_at(true, file, ram, rom, from);
    let p = calc_multiply::signed_product(true, a.value, by);
    file[PSW] = calc_multiply::product_psw(p, file[PSW]);
    mach_registers::set_reg(true, file, reg, (p.bits % 65536) as u16);
    a.bus
}

// AW for bytes, DW and AW for words.
fn dividend(word: bool, file: &[u16; 14]) -> u32
    ensures { result ≡ sheet.dividend word (file_of file.now) }
{
    let low = file[AW] as u32;
    if word {
        return file[DW] as u32 * 65536 + low;
    }
    low
}

// AL and AH for bytes, AW and DW for words.
fn set_quotient(file: &mut [u16; 14], word: bool, q: Quotient)
    requires { Held word q.quotient q.remainder }
    ensures { OnFile Unit (sheet.set_quotient word q.quotient q.remainder) file.old tt file.new }
{
    if word {
        file[AW] = q.quotient;
        file[DW] = q.remainder;
    } else {
        file[AW] = q.remainder * 256 + q.quotient;
    }
}

// The quotient and the remainder in their registers, or the trap to vector 0; the flags are undefined after it.
fn divided(
    file: &mut [u16; 14],
    ram: &mut [u8],
    rom: &[u8],
    word: bool,
    d: Option<Quotient>,
) -> Worked
    requires { Within word d }
    ensures { Gives Bool (sheet.divided word d) file ram rom result.trapped result.bus 8 }
{
    match d {
        Some(q) => {
            set_quotient(file, word, q);
            file[PSW] = calc_psw::restore(file[PSW], file[PSW]);
            Worked {
                trapped: false,
                bus: mach_tally::none(),
            }
        }
        None => {
            let b = mach_stack::trap(file, ram, rom, 0);
            file[PSW] = calc_psw::restore(file[PSW], file[PSW]);
            Worked {
                trapped: true,
                bus: b,
            }
        }
    }
}

fn divu(file: &mut [u16; 14], ram: &mut [u8], rom: &[u8], word: bool, by: Place) -> Worked
    ensures { Gives Bool (sheet.divu word by) file ram rom result.trapped result.bus 10 }
{
    let b = mach_operand::value_at(word, file, ram, rom, by);
    let a = dividend(word, file);
    let d = calc_divide::unsigned_quotient(word, a, b.value);
    let w = divided(file, ram, rom, word, d);
    Worked {
        bus: mach_tally::both(b.bus, w.bus),
        ..w
    }
}

fn div(file: &mut [u16; 14], ram: &mut [u8], rom: &[u8], word: bool, by: Place) -> Worked
    ensures { Gives Bool (sheet.div word by) file ram rom result.trapped result.bus 10 }
{
    let b = mach_operand::value_at(word, file, ram, rom, by);
    let a = dividend(word, file);
    let d = calc_divide::signed_quotient(word, a, b.value);
    let w = divided(file, ram, rom, word, d);
    Worked {
        bus: mach_tally::both(b.bus, w.bus),
        ..w
    }
}

pub fn multiply(file: &mut [u16; 14], ram: &mut [u8], rom: &[u8], i: Multiply) -> Worked
    ensures { Gives Bool (sheet.multiply i) file ram rom result.trapped result.bus 10 }
{
    match i {
        Multiply::Mulu { word, by } => Worked {
            trapped: false,
            bus: mulu(file, ram, rom, word, by),
        },
        Multiply::Mul { word, by } => Worked {
            trapped: false,
            bus: mul(file, ram, rom, word, by),
        },
        Multiply::MulByte { reg, from, by } | Multiply::MulWord { reg, from, by } => Worked {
            trapped: false,
            bus: mul_by(file, ram, rom, reg, from, by),
        },
        Multiply::Divu { word, by } => divu(file, ram, rom, word, by),
        Multiply::Div { word, by } => div(file, ram, rom, word, by),
    }
}
