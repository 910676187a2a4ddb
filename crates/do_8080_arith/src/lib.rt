// Arithmetic of the 8080 mode, and LDAX and STAX.
#![tactic(auto)]

ghost use Rattle.std.specs.Prelude.{◌≡◌, false};
ghost use Rattle.sheet.specs.Registers.{AL};
ghost use Rattle.sheet.specs.declared.Spot.TheVariants.{InRegister};
ghost use Rattle.sheet.specs.Arithmetic as native;
ghost use Rattle.sheet.specs.CardArithmetic as tree;
ghost use Rattle.sheet.specs.CardPoint as through;
ghost use Rattle.sheet.specs.Contract.{OnFile};
ghost use Rattle.calc_8080.specs.CardOperate.{card_stepped, pair_stepped};
ghost use Rattle.mach_tally.specs.Lent.{Does};

use mach_registers::{DS0, PSW};
use sheet::cards::{CardArithmetic, CardPoint};
use sheet::{Bus, Operation, Place, Shift, Source, Unary, Way};

// CMP drops the difference.
fn conclude(file: &mut [u16; 14], op: Operation, v: u16)
    ensures { OnFile Unit (native.conclude op false (InRegister AL) v) file.old tt file.new }
{
    match op {
        Operation::Cmp => {}
        _ => mach_registers::set_reg(false, file, 0, v),
    }
}

// AL and a source.
fn two(file: &mut [u16; 14], ram: &mut [u8], rom: &[u8], op: Operation, from: Source) -> Bus
    ensures { Does (tree.card_two op from) file ram rom result 4 }
{
    let a = mach_registers::reg(false, file, 0);
    let b = mach_operand::source_value(false, file, ram, rom, from);
    let x = calc_8080::operate(op, a, b.value, file[PSW]);
    file[PSW] = x.psw;
    conclude(file, op, x.value);
    b.bus
}

// INR or DCR.
fn step(file: &mut [u16; 14], ram: &mut [u8], rom: &[u8], way: Way, to: Place) -> Bus
    ensures { Does (tree.changing (card_stepped way) to) file ram rom result 4 }
{
    let spot = mach_operand::locate(file, to);
    let a = mach_operand::fetch(false, file, ram, rom, spot);
    let x = calc_8080::stepped(way, a.value, file[PSW]);
    file[PSW] = x.psw;
    let b = mach_operand::deposit(false, file, ram, rom, spot, x.value);
    mach_tally::both(a.bus, b)
}

#[tactic(auto, unfolding(calc_8080::specs::CardOperate::pair_stepped))]
fn next(way: Way, x: u16) -> u16
    ensures { result ≡ pair_stepped way x }
{
    match way {
        Way::Addition => calc_word::plus16(x, 1),
        Way::Subtraction => calc_word::minus16(x, 1),
    }
}

// INX or DCX.
fn step_pair(file: &mut [u16; 14], ram: &mut [u8], rom: &[u8], way: Way, pair: u8) -> Bus
    ensures { Does (tree.counting (pair_stepped way) pair) file ram rom result 4 }
{
    let x = mach_registers::reg(true, file, pair);
    mach_registers::set_reg(true, file, pair, next(way, x));
    mach_tally::none()
}

// CY alone.
fn dad(file: &mut [u16; 14], ram: &mut [u8], rom: &[u8], pair: u8) -> Bus
    ensures { Does (tree.dad pair) file ram rom result 4 }
{
    let x = mach_registers::reg(true, file, 3);
    let y = mach_registers::reg(true, file, pair);
    let t = calc_8080::sum16(x, y);
    file[PSW] = calc_psw::with_cy(t.cy, file[PSW]);
    mach_registers::set_reg(true, file, 3, t.value);
    mach_tally::none()
}

fn rotate(file: &mut [u16; 14], ram: &mut [u8], rom: &[u8], kind: Shift) -> Bus
    ensures { Does (tree.rotate kind) file ram rom result 4 }
{
    let a = mach_registers::reg(false, file, 0);
    let c = calc_shift::carry_in(kind, file[PSW]);
    let x = calc_8080::rotate(kind, a, c, file[PSW]);
    file[PSW] = x.psw;
    mach_registers::set_reg(false, file, 0, x.value);
    mach_tally::none()
}

fn daa(file: &mut [u16; 14], ram: &mut [u8], rom: &[u8]) -> Bus
    ensures { Does tree.daa file ram rom result 4 }
{
    let a = mach_registers::reg(false, file, 0);
    let x = calc_8080::daa(a, file[PSW]);
    file[PSW] = x.psw;
    mach_registers::set_reg(false, file, 0, x.value);
    mach_tally::none()
}

fn cma(file: &mut [u16; 14], ram: &mut [u8], rom: &[u8]) -> Bus
    ensures { Does tree.cma file ram rom result 4 }
{
    let a = mach_registers::reg(false, file, 0);
    let x = calc_arith::one(Unary::Not, false, a, file[PSW]);
    file[PSW] = x.psw;
    mach_registers::set_reg(false, file, 0, x.value);
    mach_tally::none()
}

pub fn calculate(file: &mut [u16; 14], ram: &mut [u8], rom: &[u8], i: CardArithmetic) -> Bus
    ensures { Does (tree.card_calculate i) file ram rom result 4 }
{
    match i {
        CardArithmetic::Two { op, from } => two(file, ram, rom, op, from),
        CardArithmetic::Inr { to } => step(file, ram, rom, Way::Addition, to),
        CardArithmetic::Dcr { to } => step(file, ram, rom, Way::Subtraction, to),
        CardArithmetic::Inx { pair } => step_pair(file, ram, rom, Way::Addition, pair),
        CardArithmetic::Dcx { pair } => step_pair(file, ram, rom, Way::Subtraction, pair),
        CardArithmetic::Dad { pair } => dad(file, ram, rom, pair),
        CardArithmetic::Rotate { kind } => rotate(file, ram, rom, kind),
        CardArithmetic::Daa => daa(file, ram, rom),
        CardArithmetic::Cma => cma(file, ram, rom),
    }
}

fn ldax(file: &mut [u16; 14], ram: &mut [u8], rom: &[u8], pair: u8) -> Bus
    ensures { Does (through.ldax pair) file ram rom result 2 }
{
    let ds0 = file[DS0];
    let o = mach_registers::reg(true, file, pair);
    let v = mach_memory::load(false, ram, rom, ds0, o);
    mach_registers::set_reg(false, file, 0, v.value);
    v.bus
}

fn stax(file: &mut [u16; 14], ram: &mut [u8], rom: &[u8], pair: u8) -> Bus
    ensures { Does (through.stax pair) file ram rom result 2 }
{
    let ds0 = file[DS0];
    let o = mach_registers::reg(true, file, pair);
    let a = mach_registers::reg(false, file, 0);
    mach_memory::store(false, ram, ds0, o, a)
}

pub fn point(file: &mut [u16; 14], ram: &mut [u8], rom: &[u8], i: CardPoint) -> Bus
    ensures { Does (through.point i) file ram rom result 2 }
{
    match i {
        CardPoint::Ldax { pair } => ldax(file, ram, rom, pair),
        CardPoint::Stax { pair } => stax(file, ram, rom, pair),
    }
}
