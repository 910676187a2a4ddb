// The words of instructions that compute a result and take no trap.
#![tactic(auto)]

ghost use Rattle.std.specs.Prelude.{◌≡◌, false, true};
ghost use Rattle.rom_mnemonic.specs.declared.Operand.TheVariants.{Reg};
ghost use Rattle.base_line.specs.Adds.{AddsTo};
ghost use Rattle.rom_mnemonic.specs.Mnemonics as words;

use base_line::Line;
use rom_mnemonic::{
    Operand, of_amount, of_length, of_place, of_places, put_place, put_place_source, put_three,
    put_two, read, written,
};
use sheet::{
    Amount, Arithmetic, Bit, Compute, Convert, Decimal, Field, Operation, Place, Places, Shift,
    Unary,
};

#[tactic(auto, unfolding(rom_mnemonic::specs::Mnemonics::operation_name))]
fn operation_name(op: Operation) -> &'static str
    ensures { result.now ≡ words.operation_name op }
{
    match op {
        Operation::Add => "ADD",
        Operation::Or => "OR",
        Operation::Addc => "ADDC",
        Operation::Subc => "SUBC",
        Operation::And => "AND",
        Operation::Sub => "SUB",
        Operation::Xor => "XOR",
        Operation::Cmp => "CMP",
    }
}

#[tactic(auto, unfolding(rom_mnemonic::specs::Mnemonics::unary_name))]
fn unary_name(op: Unary) -> &'static str
    ensures { result.now ≡ words.unary_name op }
{
    match op {
        Unary::Inc => "INC",
        Unary::Dec => "DEC",
        Unary::Not => "NOT",
        Unary::Neg => "NEG",
    }
}

fn put_arithmetic(line: &mut Line, i: Arithmetic)
    ensures { AddsTo (words.arithmetic_text i) line }
{
    match i {
        Arithmetic::Two { op, word, to, from } => {
            put_place_source(line, operation_name(op), word, to, from);
        }
        Arithmetic::One { op, word, to } => put_place(line, unary_name(op), word, to),
        Arithmetic::Test { word, left, right } => {
            put_place_source(line, "TEST", word, left, right);
        }
    }
}

#[tactic(auto, unfolding(rom_mnemonic::specs::Mnemonics::convert_text))]
fn convert_name(i: Convert) -> &'static str
    ensures { result.now ≡ words.convert_text i }
{
    match i {
        Convert::Adjba => "ADJBA",
        Convert::Adj4a => "ADJ4A",
        Convert::Adjbs => "ADJBS",
        Convert::Adj4s => "ADJ4S",
        Convert::Cvtbd => "CVTBD",
        Convert::Cvtdb => "CVTDB",
        Convert::Cvtbw => "CVTBW",
        Convert::Cvtwl => "CVTWL",
    }
}

#[tactic(auto, unfolding(rom_mnemonic::specs::Mnemonics::shift_name))]
fn shift_name(kind: Shift) -> &'static str
    ensures { result.now ≡ words.shift_name kind }
{
    match kind {
        Shift::Rol => "ROL",
        Shift::Ror => "ROR",
        Shift::Rolc => "ROLC",
        Shift::Rorc => "RORC",
        Shift::Shl => "SHL",
        Shift::Shr => "SHR",
        Shift::Shra => "SHRA",
    }
}

fn put_shift(line: &mut Line, kind: Shift, word: bool, to: Place, places: Places)
    ensures { AddsTo (words.two (words.shift_name kind) (words.of_place word to) (words.of_places places)) line }
{
    put_two(
        line,
        shift_name(kind),
        of_place(word, to),
        of_places(places),
    );
}

#[tactic(auto, unfolding(rom_mnemonic::specs::Mnemonics::bit_name))]
fn bit_name(op: Bit) -> &'static str
    ensures { result.now ≡ words.bit_name op }
{
    match op {
        Bit::Test1 => "TEST1",
        Bit::Clr1 => "CLR1",
        Bit::Set1 => "SET1",
        Bit::Not1 => "NOT1",
    }
}

fn put_bits(line: &mut Line, op: Bit, word: bool, to: Place, number: Amount)
    ensures { AddsTo (words.two (words.bit_name op) (words.of_place word to) (words.of_amount number)) line }
{
    put_two(line, bit_name(op), of_place(word, to), of_amount(number));
}

fn put_strings(line: &mut Line, name: &str, seg: u8)
    ensures { AddsTo (words.two name.now (words.in_ds1 false) (words.from false seg)) line }
{
    put_two(line, name, written(false), read(false, seg));
}

fn put_decimal(line: &mut Line, i: Decimal)
    ensures { AddsTo (words.decimal_text i) line }
{
    match i {
        Decimal::Add4s { seg } => put_strings(line, "ADD4S", seg),
        Decimal::Sub4s { seg } => put_strings(line, "SUB4S", seg),
        Decimal::Cmp4s { seg } => put_strings(line, "CMP4S", seg),
        Decimal::Rol4 { to } => put_place(line, "ROL4", false, to),
        Decimal::Ror4 { to } => put_place(line, "ROR4", false, to),
    }
}

// The register that holds a field's offset.
fn offset_in(number: u8) -> Operand
    ensures { result ≡ Reg false number }
{
    Operand::Reg {
        word: false,
        number,
    }
}

fn put_field(line: &mut Line, i: Field)
    ensures { AddsTo (words.field_text i) line }
{
    match i {
        Field::Ins { offset, length } => {
            put_three(
                line,
                "INS",
                offset_in(offset),
                of_length(length),
                written(true),
            );
        }
        Field::Ext {
            seg,
            offset,
            length,
        } => {
            put_three(
                line,
                "EXT",
                offset_in(offset),
                of_length(length),
                read(true, seg),
            );
        }
    }
}

pub fn put_compute(line: &mut Line, i: Compute)
    ensures { AddsTo (words.compute_text i) line }
{
    match i {
        Compute::Calculates(i) => put_arithmetic(line, i),
        Compute::Converts(i) => line.push_str(convert_name(i)),
        Compute::Shifts {
            kind,
            word,
            to,
            places,
        } => put_shift(line, kind, word, to, places),
        Compute::Bits {
            op,
            word,
            to,
            number,
        } => put_bits(line, op, word, to, number),
        Compute::Decimals(i) => put_decimal(line, i),
        Compute::Fields(i) => put_field(line, i),
    }
}
