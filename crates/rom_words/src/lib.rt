// The words of every instruction.
#![tactic(auto)]

ghost use Rattle.std.specs.Prelude.{◌≡◌, ◌++◌, true, false};
ghost use Rattle.base_line.specs.Adds.{AddsTo, PutsTo};
ghost use Rattle.rom_mnemonic.specs.declared.Operand.TheVariants.{Value};
ghost use Rattle.rom_mnemonic.specs.Mnemonics as words;

use base_line::{Line, put_word};
use rom_compute_words::put_compute;
use rom_mnemonic::{
    Operand, Size, acc, in_dw, of_place, of_port, put_one, put_place, put_three, put_two, read,
    written,
};
use rom_move_words::put_move;
use sheet::{Control, Instr, Interrupt, Io, Mode, Multiply, Place, Primitive, Repeat};

fn put_product(line: &mut Line, reg: u8, from: Place, by: u16)
    ensures { AddsTo (words.product_text reg from by) line }
{
    let to = Operand::Reg {
        word: true,
        number: reg,
    };
    let factor = Operand::Value {
        word: true,
        value: by,
    };
    put_three(line, "MUL", to, of_place(true, from), factor);
}

fn put_multiply(line: &mut Line, i: Multiply)
    ensures { AddsTo (words.multiply_text i) line }
{
    match i {
        Multiply::Mulu { word, by } => put_place(line, "MULU", word, by),
        Multiply::Mul { word, by } => put_place(line, "MUL", word, by),
        Multiply::MulByte { reg, from, by } => put_product(line, reg, from, by),
        Multiply::MulWord { reg, from, by } => put_product(line, reg, from, by),
        Multiply::Divu { word, by } => put_place(line, "DIVU", word, by),
        Multiply::Div { word, by } => put_place(line, "DIV", word, by),
    }
}

// The vector of an instruction that breaks.
fn vector_of(vector: u8) -> Operand
    ensures { result ≡ Value false vector }
{
    Operand::Value {
        word: false,
        value: vector as u16,
    }
}

fn put_interrupt(line: &mut Line, i: Interrupt)
    ensures { AddsTo (words.interrupt_text i) line }
{
    match i {
        Interrupt::Brk3 => line.push_str("BRK 3"),
        Interrupt::Brk { vector } => put_one(line, "BRK", vector_of(vector)),
        Interrupt::Brkv => line.push_str("BRKV"),
        Interrupt::Chkind { reg, from } => {
            let index = Operand::Reg {
                word: true,
                number: reg,
            };
            let bounds = Operand::Mem {
                size: Size::Pair,
                address: from,
            };
            put_two(line, "CHKIND", index, bounds);
        }
    }
}

fn put_mode(line: &mut Line, i: Mode)
    ensures { AddsTo (words.mode_text i) line }
{
    match i {
        Mode::PopPsw => line.push_str("POP PSW"),
        Mode::Reti => line.push_str("RETI"),
        Mode::Brkem { vector } => put_one(line, "BRKEM", vector_of(vector)),
    }
}

#[tactic(auto, unfolding(rom_mnemonic::specs::Mnemonics::repeat_text))]
fn repeat_name(r: Repeat) -> &'static str
    ensures { result.now ≡ words.repeat_text r }
{
    match r {
        Repeat::Once => "",
        Repeat::WhileZ => "REP ",
        Repeat::WhileNotZ => "REPNE ",
        Repeat::WhileCy => "REPC ",
        Repeat::WhileNotCy => "REPNC ",
    }
}

fn put_primitive(line: &mut Line, p: Primitive, word: bool, seg: u8)
    ensures { AddsTo (words.primitive_text p word seg) line }
{
    let to = written(word);
    let from = read(word, seg);
    match p {
        Primitive::Movbk => put_two(line, "MOVBK", to, from),
        Primitive::Cmpbk => put_two(line, "CMPBK", from, to),
        Primitive::Cmpm => put_one(line, "CMPM", to),
        Primitive::Ldm => put_one(line, "LDM", from),
        Primitive::Stm => put_one(line, "STM", to),
        Primitive::Inm => put_two(line, "INM", to, in_dw()),
        Primitive::Outm => put_two(line, "OUTM", in_dw(), from),
    }
}

fn put_blocks(line: &mut Line, p: Primitive, word: bool, seg: u8, repeat: Repeat)
    ensures { AddsTo (words.repeat_text repeat ++ words.primitive_text p word seg) line }
{
    line.push_str(repeat_name(repeat));
    put_primitive(line, p, word, seg);
}

fn put_port(line: &mut Line, i: Io)
    ensures { AddsTo (words.port_text i) line }
{
    match i {
        Io::In { word, port } => put_two(line, "IN", acc(word), of_port(port)),
        Io::Out { word, port } => put_two(line, "OUT", of_port(port), acc(word)),
    }
}

#[tactic(auto, unfolding(rom_mnemonic::specs::Mnemonics::control_text))]
fn control_name(i: Control) -> &'static str
    ensures { result.now ≡ words.control_text i }
{
    match i {
        Control::Nop => "NOP",
        Control::Halt => "HALT",
        Control::Di => "DI",
        Control::Ei => "EI",
        Control::ClrCy => "CLR1 CY",
        Control::SetCy => "SET1 CY",
        Control::NotCy => "NOT1 CY",
        Control::ClrDir => "CLR1 DIR",
        Control::SetDir => "SET1 DIR",
    }
}

// With the address of the next instruction.
pub fn put_words(line: &mut Line, next: u32, i: Instr)
    ensures { AddsTo (words.instr_text next i) line }
{
    match i {
        Instr::Computes(i) => put_compute(line, i),
        Instr::Moves(i) => put_move(line, next, i),
        Instr::Multiplies(i) => put_multiply(line, i),
        Instr::Interrupts(i) => put_interrupt(line, i),
        Instr::Blocks {
            primitive,
            word,
            seg,
            repeat,
        } => put_blocks(line, primitive, word, seg, repeat),
        Instr::Ports(i) => put_port(line, i),
        Instr::Controls(i) => line.push_str(control_name(i)),
        Instr::Modes(i) => put_mode(line, i),
        Instr::Cards(_) => line.push_str("8080"),
    }
}

// The same into 80 bytes that the caller has, behind what ends at a place: where the words end.
pub fn put_instr(line: &mut [u8; 80], at: usize, next: u32, i: Instr) -> usize
    ensures { PutsTo (words.instr_text next i) line at result }
{
    let mut words = Line::new();
    put_words(&mut words, next, i);
    put_word(line, at, words.as_bytes())
}
