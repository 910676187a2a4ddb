// MOV, LDEA, TRANS, XCH.
#![tactic(auto)]

ghost use Rattle.std.specs.Prelude.{◌≡◌};
ghost use Rattle.sheet.specs.Transfer as tree;
ghost use Rattle.mach_tally.specs.Lent.{Does};

use mach_registers::{AW, BW, PSW};
use sheet::{Address, Bus, Place, Source, Transfer};

fn mov(file: &mut [u16; 14], ram: &mut [u8], rom: &[u8], word: bool, to: Place, from: Source) -> Bus
    ensures { Does (tree.mov word to from) file ram rom result 4 }
{
    let v = mach_operand::source_value(word, file, ram, rom, from);
    let spot = mach_operand::locate(file, to);
    let b = mach_operand::deposit(word, file, ram, rom, spot, v.value);
    mach_tally::both(v.bus, b)
}

// MOV acc,dmem
fn load_acc(file: &mut [u16; 14], ram: &mut [u8], rom: &[u8], word: bool, from: Address) -> Bus
    ensures { Does (tree.load_acc word from) file ram rom result 4 }
{
    let g = mach_operand::base(file, from);
    let o = mach_operand::offset(file, from);
    let v = mach_memory::load(word, ram, rom, g, o);
    mach_registers::set_reg(word, file, 0, v.value);
    v.bus
}

// MOV dmem,acc
fn store_acc(file: &mut [u16; 14], ram: &mut [u8], rom: &[u8], word: bool, to: Address) -> Bus
    ensures { Does (tree.store_acc word to) file ram rom result 4 }
{
    let v = mach_registers::reg(word, file, 0);
    let g = mach_operand::base(file, to);
    let o = mach_operand::offset(file, to);
    mach_memory::store(word, ram, g, o, v)
}

fn to_segment(file: &mut [u16; 14], ram: &mut [u8], rom: &[u8], seg: u8, from: Place) -> Bus
    ensures { Does (tree.to_segment seg from) file ram rom result 4 }
{
    let v = mach_operand::value_at(true, file, ram, rom, from);
    mach_registers::set_base(file, seg, v.value);
    v.bus
}

fn from_segment(file: &mut [u16; 14], ram: &mut [u8], rom: &[u8], to: Place, seg: u8) -> Bus
    ensures { Does (tree.from_segment to seg) file ram rom result 4 }
{
    let spot = mach_operand::locate(file, to);
    let v = mach_registers::base(file, seg);
    mach_operand::deposit(true, file, ram, rom, spot, v)
}

// MOV DS0 or DS1,reg16,mem32
fn load_pointer(
    file: &mut [u16; 14],
    ram: &mut [u8],
    rom: &[u8],
    seg: u8,
    reg: u8,
    from: Address,
) -> Bus
    ensures { Does (tree.load_pointer seg reg from) file ram rom result 4 }
{
    let p = mach_operand::pair_at(file, ram, rom, from);
    mach_registers::set_reg(true, file, reg, p.low);
    mach_registers::set_base(file, seg, p.high);
    p.bus
}

// MOV AH,PSW
fn ah_from_psw(file: &mut [u16; 14], ram: &mut [u8], rom: &[u8]) -> Bus
    ensures { Does (tree.ah_from_psw) file ram rom result 4 }
{
    let x = file[PSW] % 256;
    mach_registers::set_reg(false, file, 4, x);
    mach_tally::none()
}

// MOV PSW,AH
fn psw_from_ah(file: &mut [u16; 14], ram: &mut [u8], rom: &[u8]) -> Bus
    ensures { Does (tree.psw_from_ah) file ram rom result 4 }
{
    let ah = mach_registers::reg(false, file, 4);
    file[PSW] = calc_psw::from_ah(ah, file[PSW]);
    mach_tally::none()
}

fn ldea(file: &mut [u16; 14], ram: &mut [u8], rom: &[u8], reg: u8, from: Address) -> Bus
    ensures { Does (tree.ldea reg from) file ram rom result 4 }
{
    let o = mach_operand::offset(file, from);
    mach_registers::set_reg(true, file, reg, o);
    mach_tally::none()
}

fn trans(file: &mut [u16; 14], ram: &mut [u8], rom: &[u8], seg: u8) -> Bus
    ensures { Does (tree.trans seg) file ram rom result 4 }
{
    let g = mach_registers::base(file, seg);
    let o = calc_word::plus16(file[BW], file[AW] % 256);
    let v = mach_memory::load(false, ram, rom, g, o);
    mach_registers::set_reg(false, file, 0, v.value);
    v.bus
}

fn xch(file: &mut [u16; 14], ram: &mut [u8], rom: &[u8], word: bool, reg: u8, with: Place) -> Bus
    ensures { Does (tree.xch word reg with) file ram rom result 4 }
{
    let spot = mach_operand::locate(file, with);
    let x = mach_operand::fetch(word, file, ram, rom, spot);
    let y = mach_registers::reg(word, file, reg);
    let b = mach_operand::deposit(word, file, ram, rom, spot, y);
    mach_registers::set_reg(word, file, reg, x.value);
    mach_tally::both(x.bus, b)
}

pub fn transfer(file: &mut [u16; 14], ram: &mut [u8], rom: &[u8], i: Transfer) -> Bus
    ensures { Does (tree.transfer i) file ram rom result 4 }
{
    match i {
        Transfer::Mov { word, to, from } => mov(file, ram, rom, word, to, from),
        Transfer::LoadAcc { word, from } => load_acc(file, ram, rom, word, from),
        Transfer::StoreAcc { word, to } => store_acc(file, ram, rom, word, to),
        Transfer::ToSegment { seg, from } => to_segment(file, ram, rom, seg, from),
        Transfer::FromSegment { to, seg } => from_segment(file, ram, rom, to, seg),
        Transfer::LoadPointer { seg, reg, from } => load_pointer(file, ram, rom, seg, reg, from),
        Transfer::AhFromPsw => ah_from_psw(file, ram, rom),
        Transfer::PswFromAh => psw_from_ah(file, ram, rom),
        Transfer::Ldea { reg, from } => ldea(file, ram, rom, reg, from),
        Transfer::Trans { seg } => trans(file, ram, rom, seg),
        Transfer::Xch { word, reg, with } => xch(file, ram, rom, word, reg, with),
    }
}
