// Operands in code: where they stand, how they are read and written.
#![tactic(auto)]

ghost use Rattle.std.specs.Prelude.{◌≡◌, ℕ};
ghost use Rattle.sheet.specs.Registers.{file_of};
ghost use Rattle.sheet.specs.Operand.{index_of, form_at, form_offset, offset_of, base_of};
ghost use Rattle.sheet.specs.Operand as tree;
ghost use Rattle.sheet.specs.Contract.{OnFile};
ghost use Rattle.mach_tally.specs.Lent.{Does, Finds};

use mach_memory::Loaded;
use mach_registers::CW;
use sheet::{Address, Amount, Bus, Place, Source, Spot};

// The word of an index register, or 0.
#[tactic(auto, using(crate::proofs::Laws::index_none, crate::proofs::Laws::index_of_lem))]
fn index(file: &[u16; 14], i: Option<u8>) -> u16
    ensures { result ≡ index_of (file_of file.now) i }
{
    match i {
        Some(n) => mach_registers::reg(true, file, n),
        None => 0,
    }
}

// The offset of an address form with a displacement.
#[tactic(auto, using(crate::proofs::Laws::form_sum))]
fn form_offset(file: &[u16; 14], form: u8, disp: u16) -> u16
    ensures { result ≡ form_offset (file_of file.now) (form_at form) disp }
{
    let f = mach_forms::form_at(form);
    let i = f.index;
    let low = calc_word::plus16(mach_registers::reg(true, file, f.base), index(file, i));
    calc_word::plus16(low, disp)
}

// An address's offset.
#[tactic(auto, using(crate::proofs::Laws::offset_direct, crate::proofs::Laws::offset_formed))]
pub fn offset(file: &[u16; 14], a: Address) -> u16
    ensures { result ≡ offset_of (file_of file.now) a }
{
    match a {
        Address::Formed { form, disp, .. } => form_offset(file, form, disp),
        Address::Direct { offset, .. } => offset,
    }
}

// The word of an address's segment register.
#[tactic(auto, unfolding(sheet::specs::Operand::base_of))]
pub fn base(file: &[u16; 14], a: Address) -> u16
    ensures { result ≡ base_of (file_of file.now) a }
{
    match a {
        Address::Formed { seg, .. } | Address::Direct { seg, .. } => {
            mach_registers::base(file, seg)
        }
    }
}

// A place with its address computed.
#[tactic(auto, using(crate::proofs::Laws::in_memory_lem, crate::proofs::Laws::in_register))]
pub fn locate(file: &[u16; 14], place: Place) -> Spot
    ensures { OnFile Spot (tree.locate place) file.now result file.now }
{
    match place {
        Place::Register(n) => Spot::InRegister(n),
        Place::Memory(a) => Spot::InMemory {
            base: base(file, a),
            offset: offset(file, a),
        },
    }
}

// Reads what stands there.
pub fn fetch(word: bool, file: &[u16; 14], ram: &[u8], rom: &[u8], spot: Spot) -> Loaded
    ensures { Finds ℕ (tree.fetch word spot) file ram rom result.value result.bus 2 }
{
    match spot {
        Spot::InRegister(n) => Loaded {
            value: mach_registers::reg(word, file, n),
            bus: mach_tally::none(),
        },
        Spot::InMemory { base, offset } => mach_memory::load(word, ram, rom, base, offset),
    }
}

// Writes there.
pub fn deposit(
    word: bool,
    file: &mut [u16; 14],
    ram: &mut [u8],
    rom: &[u8],
    spot: Spot,
    v: u16,
) -> Bus
    ensures { Does (tree.deposit word spot v) file ram rom result 2 }
{
    match spot {
        Spot::InRegister(n) => {
            mach_registers::set_reg(word, file, n, v);
            mach_tally::none()
        }
        Spot::InMemory { base, offset } => mach_memory::store(word, ram, base, offset, v),
    }
}

// A place that is only read.
pub fn value_at(word: bool, file: &[u16; 14], ram: &[u8], rom: &[u8], place: Place) -> Loaded
    ensures { Finds ℕ (tree.value_at word place) file ram rom result.value result.bus 2 }
{
    let spot = locate(file, place);
    fetch(word, file, ram, rom, spot)
}

// A place or an immediate.
pub fn source_value(word: bool, file: &[u16; 14], ram: &[u8], rom: &[u8], source: Source) -> Loaded
    ensures { Finds ℕ (tree.source_value word source) file ram rom result.value result.bus 2 }
{
    match source {
        Source::Held(place) => value_at(word, file, ram, rom, place),
        Source::Immediate(v) => Loaded {
            value: v,
            bus: mach_tally::none(),
        },
    }
}

// The two words of a 32-bit operand, and what reading them came to.
#[derive(Clone, Copy)]
pub struct Pair {
    pub low: u16,
    pub high: u16,
    pub bus: Bus,
}

pub fn pair_at(file: &[u16; 14], ram: &[u8], rom: &[u8], a: Address) -> Pair
    ensures { Finds (ℕ × ℕ) (tree.pair_at a) file ram rom ((result.low, result.high)) result.bus 4 }
{
    let g = base(file, a);
    let o = offset(file, a);
    let next = calc_word::plus16(o, 2);
    let low = mach_memory::load(true, ram, rom, g, o);
    let high = mach_memory::load(true, ram, rom, g, next);
    Pair {
        low: low.value,
        high: high.value,
        bus: mach_tally::both(low.bus, high.bus),
    }
}

// A number in CL or given.
#[tactic(auto, using(crate::proofs::Laws::amount_cl, crate::proofs::Laws::amount_given))]
pub fn amount(file: &[u16; 14], a: Amount) -> u8
    ensures { OnFile ℕ (tree.amount_of a) file.now result file.now }
{
    match a {
        Amount::InCl => (file[CW] % 256) as u8,
        Amount::Given(n) => n,
    }
}
