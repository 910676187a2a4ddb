// The block primitives that use no port, single and repeated.
#![tactic(auto)]

ghost use Rattle.std.specs.Prelude.{◌≡◌, false};
ghost use Rattle.sheet.specs.declared.Primitive.TheVariants as sheet;
ghost use Rattle.sheet.specs.Act.{affect};
ghost use Rattle.sheet.specs.Arithmetic.{difference};
ghost use Rattle.sheet.specs.Block as tree;
ghost use Rattle.sheet.specs.Contract.{OnFile};
ghost use Rattle.mach_tally.specs.Lent.{Does};
ghost use Rattle.do_block.specs.Portless.{primitive_of};

use mach_element::Due;
use mach_registers::{CW, IX, IY, PSW};
use sheet::{Bus, Primitive, Repeat};

// The flags of a comparison.
fn compare(word: bool, file: &mut [u16; 14], a: u16, b: u16)
    ensures { OnFile Unit (affect (difference word a b false).column) file.old tt file.new }
{
    let d = calc_arith::sub(word, a, b, false, file[PSW]);
    file[PSW] = d.psw;
}

fn movbk(file: &mut [u16; 14], ram: &mut [u8], rom: &[u8], word: bool, seg: u8) -> Bus
    ensures { Does (tree.primitive sheet.Movbk word seg) file ram rom result 4 }
{
    let v = mach_element::source_element(word, file, ram, rom, seg);
    let b = mach_element::set_target(word, file, ram, rom, v.value);
    mach_element::step_index(word, file, IX);
    mach_element::step_index(word, file, IY);
    mach_tally::both(v.bus, b)
}

fn cmpbk(file: &mut [u16; 14], ram: &mut [u8], rom: &[u8], word: bool, seg: u8) -> Bus
    ensures { Does (tree.primitive sheet.Cmpbk word seg) file ram rom result 4 }
{
    let a = mach_element::source_element(word, file, ram, rom, seg);
    let b = mach_element::target_element(word, file, ram, rom);
    compare(word, file, a.value, b.value);
    mach_element::step_index(word, file, IX);
    mach_element::step_index(word, file, IY);
    mach_tally::both(a.bus, b.bus)
}

fn cmpm(file: &mut [u16; 14], ram: &mut [u8], rom: &[u8], word: bool, seg: u8) -> Bus
    ensures { Does (tree.primitive sheet.Cmpm word seg) file ram rom result 4 }
{
    let a = mach_registers::reg(word, file, 0);
    let b = mach_element::target_element(word, file, ram, rom);
    compare(word, file, a, b.value);
    mach_element::step_index(word, file, IY);
    b.bus
}

fn ldm(file: &mut [u16; 14], ram: &mut [u8], rom: &[u8], word: bool, seg: u8) -> Bus
    ensures { Does (tree.primitive sheet.Ldm word seg) file ram rom result 4 }
{
    let v = mach_element::source_element(word, file, ram, rom, seg);
    mach_registers::set_reg(word, file, 0, v.value);
    mach_element::step_index(word, file, IX);
    v.bus
}

fn stm(file: &mut [u16; 14], ram: &mut [u8], rom: &[u8], word: bool, seg: u8) -> Bus
    ensures { Does (tree.primitive sheet.Stm word seg) file ram rom result 4 }
{
    let v = mach_registers::reg(word, file, 0);
    let b = mach_element::set_target(word, file, ram, rom, v);
    mach_element::step_index(word, file, IY);
    b
}

// The primitives for which the memory is enough.
#[derive(Clone, Copy)]
pub enum Portless {
    Movbk,
    Cmpbk,
    Cmpm,
    Ldm,
    Stm,
}

impl From<Portless> for Primitive {
    ghost from_gives = { λ kind p. p ≡ primitive_of kind };

    fn from(kind: Portless) -> Primitive {
        match kind {
            Portless::Movbk => Primitive::Movbk,
            Portless::Cmpbk => Primitive::Cmpbk,
            Portless::Cmpm => Primitive::Cmpm,
            Portless::Ldm => Primitive::Ldm,
            Portless::Stm => Primitive::Stm,
        }
    }
}

fn primitive(
    file: &mut [u16; 14],
    ram: &mut [u8],
    rom: &[u8],
    kind: Portless,
    word: bool,
    seg: u8,
) -> Bus
    ensures { Does (tree.primitive (primitive_of kind) word seg) file ram rom result 4 }
{
    match kind {
        Portless::Movbk => movbk(file, ram, rom, word, seg),
        Portless::Cmpbk => cmpbk(file, ram, rom, word, seg),
        Portless::Cmpm => cmpm(file, ram, rom, word, seg),
        Portless::Ldm => ldm(file, ram, rom, word, seg),
        Portless::Stm => stm(file, ram, rom, word, seg),
    }
}

// One element of an instruction whose first prefix is at the offset `start`. One call of the primitive, so that it is built in: each call
// more copies the slices that it is lent.
pub fn block(
    file: &mut [u16; 14],
    ram: &mut [u8],
    rom: &[u8],
    kind: Portless,
    word: bool,
    seg: u8,
    repeat: Repeat,
    start: u16,
) -> Bus
    ensures { Does (tree.block (primitive_of kind) word seg repeat start) file ram rom result 4 }
{
    let due = mach_element::what_is_due(file[CW], repeat);
    if let Due::Nothing = due {
        return mach_tally::none();
    }
    let b = primitive(file, ram, rom, kind, word, seg);
    if let Due::Element = due {
        mach_element::finish_element(file, Primitive::from(kind), repeat, start);
    }
    b
}
