// INS and EXT.
#![tactic(auto)]

ghost use Rattle.std.specs.Prelude.{◌≡◌, ℕ, ◌+◌, ◌%◌, ◌<◌, leb};
ghost use Rattle.sheet.specs.Width.{pick, add16};
ghost use Rattle.sheet.specs.Registers.{file_of};
ghost use Rattle.sheet.specs.Fields as sheet;
ghost use Rattle.sheet.specs.Contract.{OnFile};
ghost use Rattle.mach_tally.specs.Lent.{Does, Fills, Finds, Takes};

use mach_registers::{AW, DS1, IX, IY};
use sheet::{Bus, Field, Length};

// The length's code, of which the low 4 bits count.
fn code(file: &[u16; 14], length: Length) -> u16
    ensures { OnFile ℕ (sheet.length_of length) file.now (result % 16 + 1) file.now }
{
    match length {
        Length::InRegister(n) => mach_registers::reg(false, file, n),
        Length::Given(n) => n as u16,
    }
}

// Where a field ends, counted from bit 0 of its first word.
fn end(offset: u16, code: u16) -> u16
    ensures { result ≡ offset % 16 + (code % 16 + 1) }
{
    offset % 16 + (code % 16 + 1)
}

// The index register's word, 2 higher where the next field lies in the next word.
fn next_word(x: u16, sum: u16) -> u16
    ensures { result ≡ pick (leb 16 sum) (add16 x 2) x }
{
    if 16 <= sum {
        calc_word::plus16(x, 2)
    } else {
        x
    }
}

// The offset register shows the next field, and so does the index register.
fn advance(file: &mut [u16; 14], offset: u8, index: usize, sum: u16)
    requires { index < 13 }
    ensures { OnFile Unit (sheet.advance offset index sum) file.old tt file.new }
{
    mach_registers::set_reg(false, file, offset, sum % 16);
    file[index] = next_word(file[index], sum);
}

// What of the field goes into the first word.
fn first_part(file: &[u16; 14], ram: &mut [u8], rom: &[u8], offset: u16, code: u16) -> Bus
    ensures { Fills Unit (sheet.first_part (file_of file.now) (offset % 16) (code % 16 + 1)) file ram rom tt result 4 }
{
    let base = file[DS1];
    let at = file[IY];
    let x = mach_memory::load(true, ram, rom, base, at);
    let y = calc_field::first(x.value, offset, code, file[AW]);
    let b = mach_memory::store(true, ram, base, at, y);
    mach_tally::both(x.bus, b)
}

// What goes into the second, which is not touched where nothing does.
fn second_part(file: &[u16; 14], ram: &mut [u8], rom: &[u8], offset: u16, code: u16) -> Bus
    ensures { Fills Unit (sheet.second_part (file_of file.now) (offset % 16) (code % 16 + 1)) file ram rom tt result 4 }
{
    if 16 < end(offset, code) {
        let base = file[DS1];
        let at = calc_word::plus16(file[IY], 2);
        let x = mach_memory::load(true, ram, rom, base, at);
        let y = calc_field::second(x.value, offset, code, file[AW]);
        let b = mach_memory::store(true, ram, base, at, y);
        return mach_tally::both(x.bus, b);
    }
    mach_tally::none()
}

fn ins(file: &mut [u16; 14], ram: &mut [u8], rom: &[u8], offset: u8, length: Length) -> Bus
    ensures { Does (sheet.ins offset length) file ram rom result 8 }
{
    let o = mach_registers::reg(false, file, offset);
    let n = code(file, length);
    let a = first_part(file, ram, rom, o, n);
    let b = second_part(file, ram, rom, o, n);
    advance(file, offset, IY, end(o, n));
    mach_tally::both(a, b)
}

// One word of memory or two, and what reading came to.
#[derive(Clone, Copy)]
struct Words {
    bits: u32,
    bus: Bus,
}

// The word at an offset and, where `both`, the next one above it.
fn window(file: &[u16; 14], ram: &[u8], rom: &[u8], base: u16, offset: u16, both: bool) -> Words
    ensures { Finds ℕ (sheet.window base offset both) file ram rom result.bits result.bus 4 }
{
    let low = mach_memory::load(true, ram, rom, base, offset);
    if both {
        let next = calc_word::plus16(offset, 2);
        let high = mach_memory::load(true, ram, rom, base, next);
        return Words {
            bits: low.value as u32 + 65536 * (high.value as u32),
            bus: mach_tally::both(low.bus, high.bus),
        };
    }
    let bus = low.bus;
    Words {
        bits: low.value as u32,
        bus,
    }
}

fn ext(file: &mut [u16; 14], ram: &[u8], rom: &[u8], seg: u8, offset: u8, length: Length) -> Bus
    ensures { Takes Unit (sheet.ext seg offset length) file ram rom tt result 8 }
{
    let o = mach_registers::reg(false, file, offset);
    let n = code(file, length);
    let sum = end(o, n);
    let base = mach_registers::base(file, seg);
    let at = file[IX];
    let x = window(file, ram, rom, base, at, 16 < sum);
    file[AW] = calc_field::taken(x.bits, o, n);
    advance(file, offset, IX, sum);
    x.bus
}

pub fn field(file: &mut [u16; 14], ram: &mut [u8], rom: &[u8], i: Field) -> Bus
    ensures { Does (sheet.field i) file ram rom result 8 }
{
    match i {
        Field::Ins { offset, length } => ins(file, ram, rom, offset, length),
        Field::Ext {
            seg,
            offset,
            length,
        } => ext(file, ram, rom, seg, offset, length),
    }
}
