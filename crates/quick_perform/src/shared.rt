// What readings do by the functions that the general path has for them: blocks, decimal strings, conversions, products, quotients, shifts by a count.
ghost use Rattle.std.specs.Prelude.{◌≡◌};
ghost use Rattle.sheet.specs.Block.{block as block_of};
ghost use Rattle.sheet.specs.Convert.{convert as convert_of};
ghost use Rattle.sheet.specs.Decimal.{decimal};
ghost use Rattle.sheet.specs.declared.Place.TheVariants.{Register, Memory};
ghost use Rattle.sheet.specs.declared.Places.TheVariants.{Counted};
ghost use Rattle.sheet.specs.Multiply.{multiply as multiply_of};
ghost use Rattle.sheet.specs.Shift.{shift};
ghost use Rattle.sheet.specs.Contract.{OnFile};
ghost use Rattle.mach_tally.specs.Lent.{Does};
ghost use Rattle.do_block.specs.Portless.{primitive_of};
ghost use Rattle.quick_place.specs.Packed.{op_of, rm_of, reg_of, seg_of, word_of, imm_of, primitive_at, repeat_at, string_at, product_at, convert_at, shift_at, address_of};
ghost use Rattle.quick_pack.specs.Readings.{amount_at};
ghost use Rattle.quick_perform.specs.Tries.{TriesOn};

use do_block::Portless;
use quick_place::{Field, NO_FORM, Reading};
use sheet::{Address, Amount, Bus, Decimal, Multiply, Place, Places, Repeat};

#[tactic(auto, unfolding(quick_place::specs::Packed::primitive_at))]
fn primitive_at(op: u8) -> Portless
    ensures { primitive_of result ≡ primitive_at op }
{
    match op {
        1 => Portless::Cmpbk,
        2 => Portless::Cmpm,
        3 => Portless::Ldm,
        4 => Portless::Stm,
        _ => Portless::Movbk,
    }
}

// One element of a block, or a single primitive.
pub fn block(file: &mut [u16; 14], ram: &mut [u8], rom: &[u8], r: Reading, start: u16) -> Bus
    ensures { Does (block_of (primitive_at (op_of r.bits)) (word_of r.bits) (seg_of r.bits) (repeat_at (reg_of r.bits)) start) file ram rom result 384 }
{
    let word = r.word();
    let kind = primitive_at(r.op_number());
    let repeat = Repeat::at_number(r.reg());
    do_block::block(file, ram, rom, kind, word, r.segment(), repeat, start)
}

#[tactic(auto, unfolding(quick_place::specs::Packed::string_at))]
fn string_at(op: u8, seg: u8) -> Decimal
    ensures { result ≡ string_at op seg }
{
    match op {
        1 => Decimal::Sub4s { seg },
        2 => Decimal::Cmp4s { seg },
        _ => Decimal::Add4s { seg },
    }
}

// ADD4S, SUB4S, CMP4S.
pub fn string(file: &mut [u16; 14], ram: &mut [u8], rom: &[u8], r: Reading) -> Bus
    ensures { Does (decimal (string_at (op_of r.bits) (seg_of r.bits))) file ram rom result 384 }
{
    let i = string_at(r.op_number(), r.segment());
    do_decimal::decimal(file, ram, rom, i)
}

// ADJ4A to CVTWL.
pub fn convert(file: &mut [u16; 14], r: Reading)
    ensures { OnFile Unit (convert_of (convert_at (op_of r.bits))) file.old tt file.new }
{
    do_convert::convert(file, r.op());
}

#[tactic(auto, unfolding(quick_place::specs::Packed::product_at))]
fn product_at(op: u8, word: bool, by: Place) -> Multiply
    ensures { result ≡ product_at op word by }
{
    match op {
        1 => Multiply::Mul { word, by },
        2 => Multiply::Divu { word, by },
        3 => Multiply::Div { word, by },
        _ => Multiply::Mulu { word, by },
    }
}

// MULU, MUL, DIVU, DIV with a register.
pub fn multiply(file: &mut [u16; 14], ram: &mut [u8], rom: &[u8], r: Reading) -> Bus
    ensures { TriesOn (multiply_of (product_at (op_of r.bits) (word_of r.bits) (Register (rm_of r.bits)))) file ram rom result 384 }
{
    let i = product_at(r.op_number(), r.word(), Place::Register(r.rm()));
    do_multiply::multiply(file, ram, rom, i).bus
}

#[tactic(auto, unfolding(quick_pack::specs::Readings::amount_at))]
fn amount_at(reg: u8, imm: u16) -> Amount
    ensures { result ≡ amount_at reg imm }
{
    if reg == 1 {
        return Amount::InCl;
    }
    Amount::Given((imm % 256) as u8)
}

fn address_of(r: Reading) -> Address
    ensures { result ≡ address_of r.bits }
{
    let seg = r.segment();
    let disp = r.disp();
    let form = r.rm();
    if form == NO_FORM {
        return Address::Direct { seg, offset: disp };
    }
    Address::Formed { seg, form, disp }
}

fn shift_by(file: &mut [u16; 14], ram: &mut [u8], rom: &[u8], r: Reading, to: Place) -> Bus
    ensures { Does (shift (shift_at (op_of r.bits)) (word_of r.bits) to (Counted (amount_at (reg_of r.bits) (imm_of r.bits)))) file ram rom result 384 }
{
    let amount = amount_at(r.reg(), r.imm());
    do_shift::shift(
        file,
        ram,
        rom,
        r.op(),
        r.word(),
        to,
        Places::Counted(amount),
    )
}

// A register by a count.
pub fn shift_r(file: &mut [u16; 14], ram: &mut [u8], rom: &[u8], r: Reading) -> Bus
    ensures { Does (shift (shift_at (op_of r.bits)) (word_of r.bits) (Register (rm_of r.bits)) (Counted (amount_at (reg_of r.bits) (imm_of r.bits))))
        file ram rom result 384 }
{
    shift_by(file, ram, rom, r, Place::Register(r.rm()))
}

// Memory by a count.
pub fn shift_m(file: &mut [u16; 14], ram: &mut [u8], rom: &[u8], r: Reading) -> Bus
    ensures { Does (shift (shift_at (op_of r.bits)) (word_of r.bits) (Memory (address_of r.bits)) (Counted (amount_at (reg_of r.bits) (imm_of r.bits))))
        file ram rom result 384 }
{
    shift_by(file, ram, rom, r, Place::Memory(address_of(r)))
}
