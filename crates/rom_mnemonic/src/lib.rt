// An instruction in NEC's words: operands, and a mnemonic with its operands, as text in a line.
#![tactic(auto)]

ghost use Rattle.std.specs.Prelude.{◌≡◌, false};
ghost use Rattle.sheet.specs.Width.{pick};
ghost use Rattle.sheet.specs.Operand.{form_at};
ghost use Rattle.sheet.specs.Registers as registers;
ghost use Rattle.base_line.specs.Adds.{AddsTo};
ghost use Rattle.rom_mnemonic.specs.declared.Operand.TheVariants as operand;
ghost use Rattle.rom_mnemonic.specs.Operands as text;
ghost use Rattle.rom_mnemonic.specs.Mnemonics as words;

use base_line::Line;
use sheet::{Address, Amount, Length, Place, Places, Port, Source};

// How much stands at an address: an address alone, a byte, a word, or a pointer of two words.
#[derive(Clone, Copy)]
pub enum Size {
    Unsaid,
    Byte,
    Word,
    Pair,
}

// An operand as it is typed. Registers are numbered as in Tables 8-6 and 8-7.
#[derive(Clone, Copy)]
pub enum Operand {
    Reg { word: bool, number: u8 },
    Seg(u8),
    Mem { size: Size, address: Address },
    // what an index register points to in a segment: a block, a string, a table
    Block { word: bool, seg: u8, by: u8 },
    Value { word: bool, value: u16 },
    // the fixed count 1
    Once,
    // where a near branch leads
    Target(u32),
    Far { ps: u16, pc: u16 },
}

// Two letters a register.
fn register_names(word: bool) -> &'static [u8; 16]
    ensures { result.now ≡ pick word text.word_registers text.byte_registers }
{
    if word {
        b"AWCWDWBWSPBPIXIY"
    } else {
        b"ALCLDLBLAHCHDHBH"
    }
}

fn put_register(line: &mut Line, word: bool, n: u8)
    ensures { AddsTo (text.register_text word n) line }
{
    let names = register_names(word);
    let i = 2 * (n % 8) as usize;
    line.push_bytes(&names[i..i + 2]);
}

fn segment_name(n: u8) -> &'static str
    ensures { result.now ≡ text.segment_text n }
{
    match n % 4 {
        0 => "DS1",
        1 => "PS",
        2 => "SS",
        _ => "DS0",
    }
}

#[tactic(auto, unfolding(crate::specs::Operands::size_text))]
fn size_name(size: Size) -> &'static str
    ensures { result.now ≡ text.size_text size }
{
    match size {
        Size::Unsaid => "",
        Size::Byte => "BYTE ",
        Size::Word => "WORD ",
        Size::Pair => "DWORD ",
    }
}

fn put_index(line: &mut Line, index: Option<u8>)
    ensures { AddsTo (text.index_text index) line }
{
    if let Some(n) = index {
        line.push(b'+');
        put_register(line, true, n);
    }
}

fn put_form(line: &mut Line, n: u8)
    ensures { AddsTo (text.form_text (form_at n)) line }
{
    let form = mach_forms::form_at(n);
    put_register(line, true, form.base);
    put_index(line, form.index);
}

fn put_disp(line: &mut Line, disp: u16)
    ensures { AddsTo (text.disp_text disp) line }
{
    if disp != 0 {
        line.push(b'+');
        line.push_hex(disp as u64, 4);
    }
}

// A segment, up to the offset in it.
fn put_within(line: &mut Line, seg: u8)
    ensures { AddsTo (text.opening seg) line }
{
    line.push_str(segment_name(seg));
    line.push_str(":[");
}

fn put_formed(line: &mut Line, form: u8, disp: u16)
    ensures { AddsTo (text.formed_text form disp) line }
{
    put_form(line, form);
    put_disp(line, disp);
}

fn put_address(line: &mut Line, a: Address)
    ensures { AddsTo (text.address_text a) line }
{
    match a {
        Address::Formed { seg, form, disp } => {
            put_within(line, seg);
            put_formed(line, form, disp);
            line.push(b']');
        }
        Address::Direct { seg, offset } => {
            put_within(line, seg);
            line.push_hex(offset as u64, 4);
            line.push(b']');
        }
    }
}

// What an index register points to in a segment.
fn put_block(line: &mut Line, word: bool, seg: u8, by: u8)
    ensures { AddsTo (text.operand_text (operand.Block word seg by)) line }
{
    line.push_str(size_name(size_of(word)));
    put_within(line, seg);
    put_register(line, true, by);
    line.push(b']');
}

fn put_value(line: &mut Line, word: bool, value: u16)
    ensures { AddsTo (text.operand_text (operand.Value word value)) line }
{
    let digits = if word { 4 } else { 2 };
    line.push_hex(value as u64, digits);
}

fn put_far(line: &mut Line, ps: u16, pc: u16)
    ensures { AddsTo (text.operand_text (operand.Far ps pc)) line }
{
    line.push_hex(ps as u64, 4);
    line.push(b':');
    line.push_hex(pc as u64, 4);
}

fn put_operand(line: &mut Line, o: Operand)
    ensures { AddsTo (text.operand_text o) line }
{
    match o {
        Operand::Reg { word, number } => put_register(line, word, number),
        Operand::Seg(n) => line.push_str(segment_name(n)),
        Operand::Mem { size, address } => {
            line.push_str(size_name(size));
            put_address(line, address);
        }
        Operand::Block { word, seg, by } => put_block(line, word, seg, by),
        Operand::Value { word, value } => put_value(line, word, value),
        Operand::Once => line.push(b'1'),
        Operand::Target(a) => line.push_hex(a as u64, 5),
        Operand::Far { ps, pc } => put_far(line, ps, pc),
    }
}

// ---- a mnemonic with its operands

// What stands behind the mnemonic.
pub fn put_after(line: &mut Line, a: Operand)
    ensures { AddsTo (words.after a) line }
{
    line.push(b' ');
    put_operand(line, a);
}

pub fn put_after_two(line: &mut Line, a: Operand, b: Operand)
    ensures { AddsTo (words.after_two a b) line }
{
    put_after(line, a);
    line.push(b',');
    put_operand(line, b);
}

pub fn put_one(line: &mut Line, name: &str, a: Operand)
    ensures { AddsTo (words.one name.now a) line }
{
    line.push_str(name);
    put_after(line, a);
}

pub fn put_two(line: &mut Line, name: &str, a: Operand, b: Operand)
    ensures { AddsTo (words.two name.now a b) line }
{
    line.push_str(name);
    put_after_two(line, a, b);
}

pub fn put_three(line: &mut Line, name: &str, a: Operand, b: Operand, c: Operand)
    ensures { AddsTo (words.three name.now a b c) line }
{
    line.push_str(name);
    put_after_two(line, a, b);
    line.push(b',');
    put_operand(line, c);
}

// ---- operands from those of an instruction

#[tactic(auto, unfolding(crate::specs::Operands::size_of))]
pub fn size_of(word: bool) -> Size
    ensures { result ≡ text.size_of word }
{
    if word { Size::Word } else { Size::Byte }
}

#[tactic(auto, unfolding(crate::specs::Mnemonics::of_place))]
pub fn of_place(word: bool, p: Place) -> Operand
    ensures { result ≡ words.of_place word p }
{
    match p {
        Place::Register(n) => Operand::Reg { word, number: n },
        Place::Memory(a) => Operand::Mem {
            size: size_of(word),
            address: a,
        },
    }
}

#[tactic(auto, unfolding(crate::specs::Mnemonics::of_source))]
fn of_source(word: bool, s: Source) -> Operand
    ensures { result ≡ words.of_source word s }
{
    match s {
        Source::Held(p) => of_place(word, p),
        Source::Immediate(v) => Operand::Value { word, value: v },
    }
}

#[tactic(auto, unfolding(crate::specs::Mnemonics::of_amount))]
pub fn of_amount(a: Amount) -> Operand
    ensures { result ≡ words.of_amount a }
{
    match a {
        Amount::InCl => Operand::Reg {
            word: false,
            number: 1,
        },
        Amount::Given(n) => Operand::Value {
            word: false,
            value: n as u16,
        },
    }
}

#[tactic(auto, unfolding(crate::specs::Mnemonics::of_places))]
pub fn of_places(p: Places) -> Operand
    ensures { result ≡ words.of_places p }
{
    match p {
        Places::One => Operand::Once,
        Places::Counted(a) => of_amount(a),
    }
}

#[tactic(auto, unfolding(crate::specs::Mnemonics::of_length))]
pub fn of_length(n: Length) -> Operand
    ensures { result ≡ words.of_length n }
{
    match n {
        Length::InRegister(r) => Operand::Reg {
            word: false,
            number: r,
        },
        Length::Given(v) => Operand::Value {
            word: false,
            value: v as u16,
        },
    }
}

#[tactic(auto, unfolding(crate::specs::Mnemonics::of_port))]
pub fn of_port(p: Port) -> Operand
    ensures { result ≡ words.of_port p }
{
    match p {
        Port::InDw => in_dw(),
        Port::Numbered(n) => Operand::Value {
            word: false,
            value: n as u16,
        },
    }
}

// Where a displacement leads from the next instruction.
pub fn target(next: u32, disp: u16) -> Operand
    ensures { result ≡ words.target next disp }
{
    let past = next as u64 + disp as u64;
    if disp < 0x8000 {
        return Operand::Target((past % 0x100000) as u32);
    }
    Operand::Target(((past + 0xf0000) % 0x100000) as u32)
}

// ---- operands that instructions name by themselves

// The numbers of AW, DW, BW, IX and IY, and of the segment DS1.
const AW: u8 = 0;

const DW: u8 = 2;

const BW: u8 = 3;

const IX: u8 = 6;

const IY: u8 = 7;

const DS1: u8 = 0;

// AL or AW.
pub fn acc(word: bool) -> Operand
    ensures { result ≡ words.acc word }
{
    Operand::Reg { word, number: AW }
}

// The register that holds a port's number.
pub fn in_dw() -> Operand
    ensures { result ≡ words.in_dw }
{
    Operand::Reg {
        word: true,
        number: DW,
    }
}

// Strings and blocks: what is written, by IY in DS1, and what is read, by IX in a segment.
pub fn written(word: bool) -> Operand
    ensures { result ≡ words.in_ds1 word }
{
    Operand::Block {
        word,
        seg: DS1,
        by: IY,
    }
}

pub fn read(word: bool, seg: u8) -> Operand
    ensures { result ≡ words.from word seg }
{
    Operand::Block { word, seg, by: IX }
}

// The table of TRANS.
pub fn table(seg: u8) -> Operand
    ensures { result ≡ operand.Block false seg registers.BW }
{
    Operand::Block {
        word: false,
        seg,
        by: BW,
    }
}

// ---- the operands that most instructions have

pub fn put_place(line: &mut Line, name: &str, word: bool, p: Place)
    ensures { AddsTo (words.one name.now (words.of_place word p)) line }
{
    put_one(line, name, of_place(word, p));
}

pub fn put_place_source(line: &mut Line, name: &str, word: bool, to: Place, from: Source)
    ensures { AddsTo (words.two name.now (words.of_place word to) (words.of_source word from)) line }
{
    put_two(line, name, of_place(word, to), of_source(word, from));
}

pub fn put_target(line: &mut Line, name: &str, next: u32, disp: u16)
    ensures { AddsTo (words.one name.now (words.target next disp)) line }
{
    put_one(line, name, target(next, disp));
}
