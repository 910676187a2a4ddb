// ADD4S, SUB4S, CMP4S, ROL4, ROR4.
#![tactic(auto)]

ghost use Rattle.std.specs.Prelude.{◌≡◌, ◌≤◌};
ghost use Rattle.sheet.specs.Psw.{unknown, becomes, columns, column, keeps, settled};
ghost use Rattle.sheet.specs.Decimal as sheet;
ghost use Rattle.mach_tally.specs.Lent.{Does, Fills};
ghost use Rattle.do_decimal.specs.Both.{Both};

use calc_flags::Flags;
use mach_registers::{CW, DS1, IX, IY, PSW};
use sheet::{Bus, Chain, Decimal, Place, Storing, Way};

// What goes on to the next byte, and what the accesses so far came to.
#[derive(Clone, Copy)]
struct Linked {
    chain: Chain,
    bus: Bus,
}

// A byte of each string, and what reading them came to.
#[derive(Clone, Copy)]
struct Bytes {
    to: u16,
    from: u16,
    bus: Bus,
}

// Byte i of the string at DS1:IY, then that of the string at the source segment's IX.
fn read_both(file: &[u16; 14], ram: &[u8], rom: &[u8], seg: u8, i: u16) -> Bytes
    ensures { Both file.now ram.now rom.now seg i result.to result.from result.bus }
{
    let a = mach_memory::load(false, ram, rom, file[DS1], calc_word::plus16(file[IY], i));
    let b = mach_memory::load(
        false,
        ram,
        rom,
        mach_registers::base(file, seg),
        calc_word::plus16(file[IX], i),
    );
    Bytes {
        to: a.value,
        from: b.value,
        bus: mach_tally::both(a.bus, b.bus),
    }
}

fn stores(storing: Storing) -> bool
    ensures { result ≡ sheet.stores storing }
{
    matches!(storing, Storing::Stored)
}

// One byte of the result.
fn link(
    file: &[u16; 14],
    ram: &mut [u8],
    rom: &[u8],
    way: Way,
    storing: Storing,
    seg: u8,
    i: u16,
    c: Chain,
) -> Linked
    ensures { Fills Chain (sheet.link way storing seg i c) file ram rom result.chain result.bus 3 }
{
    let x = read_both(file, ram, rom, seg, i);
    let d = calc_decimal::digits(way, x.to, x.from, c.cy);
    let chain = Chain {
        cy: d.cy,
        zero: c.zero & (d.value == 0),
    };
    let bus = x.bus;
    if stores(storing) {
        let n = mach_memory::store(
            false,
            ram,
            file[DS1],
            calc_word::plus16(file[IY], i),
            d.value,
        );
        return Linked {
            chain,
            bus: mach_tally::both(bus, n),
        };
    }
    Linked { chain, bus }
}

// The first `last` bytes of the strings, lowest address first.
fn chained(
    file: &[u16; 14],
    ram: &mut [u8],
    rom: &[u8],
    way: Way,
    storing: Storing,
    seg: u8,
    last: u16,
) -> Linked
    requires { last ≤ 128 }
    ensures { Fills Chain (sheet.chained way storing seg last) file ram rom result.chain result.bus 384 }
{
    let mut chain = Chain {
        cy: false,
        zero: true,
    };
    let mut bus = mach_tally::none();
    for i in 0..last {
        let l = link(file, ram, rom, way, storing, seg, i, chain);
        chain = l.chain;
        bus = mach_tally::both(bus, l.bus);
    }
    Linked { chain, bus }
}

// PSW after a string: CY by its last byte, Z by all of them.
fn string_psw(c: Chain, psw: u16) -> u16
    ensures { result ≡ settled keeps (column (columns unknown (becomes c.cy) unknown unknown unknown (becomes c.zero))) psw }
{
    let f = Flags {
        cy: c.cy,
        z: c.zero,
        ..Flags::from(psw)
    };
    calc_psw::affect(f, psw)
}

// ADD4S, SUB4S or CMP4S.
fn string(
    file: &mut [u16; 14],
    ram: &mut [u8],
    rom: &[u8],
    way: Way,
    storing: Storing,
    seg: u8,
) -> Bus
    ensures { Does (sheet.string way storing seg) file ram rom result 384 }
{
    let digits = file[CW] % 256;
    let l = chained(file, ram, rom, way, storing, seg, (digits + 1) / 2);
    file[PSW] = string_psw(l.chain, file[PSW]);
    l.bus
}

fn rol4(file: &mut [u16; 14], ram: &mut [u8], rom: &[u8], to: Place) -> Bus
    ensures { Does (sheet.rol4 to) file ram rom result 4 }
{
    let al = mach_registers::reg(false, file, 0);
    let spot = mach_operand::locate(file, to);
    let x = mach_operand::fetch(false, file, ram, rom, spot);
    let y = calc_decimal::rol4(x.value, al);
    let b = mach_operand::deposit(false, file, ram, rom, spot, y);
    mach_registers::set_reg(false, file, 0, calc_decimal::rol4_al(x.value, al));
    mach_tally::both(x.bus, b)
}

fn ror4(file: &mut [u16; 14], ram: &mut [u8], rom: &[u8], to: Place) -> Bus
    ensures { Does (sheet.ror4 to) file ram rom result 4 }
{
    let al = mach_registers::reg(false, file, 0);
    let spot = mach_operand::locate(file, to);
    let x = mach_operand::fetch(false, file, ram, rom, spot);
    let y = calc_decimal::ror4(x.value, al);
    let b = mach_operand::deposit(false, file, ram, rom, spot, y);
    mach_registers::set_reg(false, file, 0, calc_decimal::ror4_al(x.value, al));
    mach_tally::both(x.bus, b)
}

pub fn decimal(file: &mut [u16; 14], ram: &mut [u8], rom: &[u8], i: Decimal) -> Bus
    ensures { Does (sheet.decimal i) file ram rom result 384 }
{
    match i {
        Decimal::Add4s { seg } => string(file, ram, rom, Way::Addition, Storing::Stored, seg),
        Decimal::Sub4s { seg } => string(file, ram, rom, Way::Subtraction, Storing::Stored, seg),
        Decimal::Cmp4s { seg } => string(file, ram, rom, Way::Subtraction, Storing::NotStored, seg),
        Decimal::Rol4 { to } => rol4(file, ram, rom, to),
        Decimal::Ror4 { to } => ror4(file, ram, rom, to),
    }
}
