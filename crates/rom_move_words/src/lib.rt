// The words of instructions that move data or PC and take no trap.
#![tactic(auto)]

ghost use Rattle.std.specs.Prelude.{◌≡◌, true, false};
ghost use Rattle.base_line.specs.Adds.{AddsTo};
ghost use Rattle.base_text.specs.Text.{text};
ghost use Rattle.rom_mnemonic.specs.declared.Size.TheVariants.{Pair};
ghost use Rattle.rom_mnemonic.specs.declared.Operand.TheVariants.{Reg, Seg, Mem, Value};
ghost use Rattle.rom_mnemonic.specs.Operands.{size_of};
ghost use Rattle.rom_mnemonic.specs.Mnemonics as words;

use base_line::Line;
use rom_mnemonic::{
    Operand, Size, acc, of_place, put_after, put_one, put_place, put_place_source, put_target,
    put_three, put_two, size_of, table, target,
};
use sheet::{Address, Branch, Conditional, Move, Place, Stack, Transfer};

// A register of a word.
fn word_register(number: u8) -> Operand
    ensures { result ≡ Reg true number }
{
    Operand::Reg { word: true, number }
}

// A pointer of two words in memory.
fn pointer(address: Address) -> Operand
    ensures { result ≡ Mem Pair address }
{
    Operand::Mem {
        size: Size::Pair,
        address,
    }
}

// A byte or a word in memory.
fn sized(word: bool, address: Address) -> Operand
    ensures { result ≡ Mem (size_of word) address }
{
    Operand::Mem {
        size: size_of(word),
        address,
    }
}

fn put_load(line: &mut Line, word: bool, from: Address)
    ensures { AddsTo (words.two (text "MOV") (words.acc word) (Mem (size_of word) from)) line }
{
    put_two(line, "MOV", acc(word), sized(word, from));
}

fn put_store(line: &mut Line, word: bool, to: Address)
    ensures { AddsTo (words.two (text "MOV") (Mem (size_of word) to) (words.acc word)) line }
{
    put_two(line, "MOV", sized(word, to), acc(word));
}

fn put_to_segment(line: &mut Line, seg: u8, from: Place)
    ensures { AddsTo (words.two (text "MOV") (Seg seg) (words.of_place true from)) line }
{
    put_two(line, "MOV", Operand::Seg(seg), of_place(true, from));
}

fn put_from_segment(line: &mut Line, to: Place, seg: u8)
    ensures { AddsTo (words.two (text "MOV") (words.of_place true to) (Seg seg)) line }
{
    put_two(line, "MOV", of_place(true, to), Operand::Seg(seg));
}

fn put_pointer(line: &mut Line, seg: u8, reg: u8, from: Address)
    ensures { AddsTo (words.three (text "MOV") (Seg seg) (Reg true reg) (Mem Pair from)) line }
{
    put_three(
        line,
        "MOV",
        Operand::Seg(seg),
        word_register(reg),
        pointer(from),
    );
}

fn put_exchange(line: &mut Line, word: bool, reg: u8, with: Place)
    ensures { AddsTo (words.two (text "XCH") (Reg word reg) (words.of_place word with)) line }
{
    put_two(
        line,
        "XCH",
        Operand::Reg { word, number: reg },
        of_place(word, with),
    );
}

fn put_transfer(line: &mut Line, i: Transfer)
    ensures { AddsTo (words.transfer_text i) line }
{
    match i {
        Transfer::Mov { word, to, from } => put_place_source(line, "MOV", word, to, from),
        Transfer::LoadAcc { word, from } => put_load(line, word, from),
        Transfer::StoreAcc { word, to } => put_store(line, word, to),
        Transfer::ToSegment { seg, from } => put_to_segment(line, seg, from),
        Transfer::FromSegment { to, seg } => put_from_segment(line, to, seg),
        Transfer::LoadPointer { seg, reg, from } => put_pointer(line, seg, reg, from),
        Transfer::AhFromPsw => line.push_str("MOV AH,PSW"),
        Transfer::PswFromAh => line.push_str("MOV PSW,AH"),
        Transfer::Ldea { reg, from } => {
            let address = Operand::Mem {
                size: Size::Unsaid,
                address: from,
            };
            put_two(line, "LDEA", word_register(reg), address);
        }
        Transfer::Trans { seg } => put_one(line, "TRANS", table(seg)),
        Transfer::Xch { word, reg, with } => put_exchange(line, word, reg, with),
    }
}

fn put_push(line: &mut Line, value: u16)
    ensures { AddsTo (words.push_text value) line }
{
    put_one(line, "PUSH", Operand::Value { word: true, value });
}

fn put_prepare(line: &mut Line, size: u16, level: u8)
    ensures { AddsTo (words.two (text "PREPARE") (Value true size) (Value false level)) line }
{
    let bytes = Operand::Value {
        word: true,
        value: size,
    };
    let depth = Operand::Value {
        word: false,
        value: level as u16,
    };
    put_two(line, "PREPARE", bytes, depth);
}

fn put_stack(line: &mut Line, i: Stack)
    ensures { AddsTo (words.stack_text i) line }
{
    match i {
        Stack::Push { from } => put_place(line, "PUSH", true, from),
        Stack::PushByte { value } => put_push(line, value),
        Stack::PushWord { value } => put_push(line, value),
        Stack::PushSegment { seg } => put_one(line, "PUSH", Operand::Seg(seg)),
        Stack::PushPsw => line.push_str("PUSH PSW"),
        Stack::PushR => line.push_str("PUSH R"),
        Stack::Pop { to } => put_place(line, "POP", true, to),
        Stack::PopSegment { seg } => put_one(line, "POP", Operand::Seg(seg)),
        Stack::PopR => line.push_str("POP R"),
        Stack::Prepare { size, level } => put_prepare(line, size, level),
        Stack::Dispose => line.push_str("DISPOSE"),
    }
}

// A call or a branch to another segment.
fn put_far(line: &mut Line, name: &str, ps: u16, pc: u16)
    ensures { AddsTo (words.far_text name.now ps pc) line }
{
    put_one(line, name, Operand::Far { ps, pc });
}

// By a pointer of two words in memory.
fn put_far_at(line: &mut Line, name: &str, to: Address)
    ensures { AddsTo (words.far_at_text name.now to) line }
{
    put_one(line, name, pointer(to));
}

fn put_return(line: &mut Line, size: u16)
    ensures { AddsTo (words.return_text size) line }
{
    let bytes = Operand::Value {
        word: true,
        value: size,
    };
    put_one(line, "RET", bytes);
}

fn put_branch(line: &mut Line, next: u32, i: Branch)
    ensures { AddsTo (words.branch_text next i) line }
{
    match i {
        Branch::CallNear { disp } => put_target(line, "CALL", next, disp),
        Branch::CallTo { to } => put_place(line, "CALL", true, to),
        Branch::CallFar { ps, pc } => put_far(line, "CALL", ps, pc),
        Branch::CallFarAt { at } => put_far_at(line, "CALL", at),
        Branch::Ret => line.push_str("RET"),
        Branch::RetPop { size } => put_return(line, size),
        Branch::RetFar => line.push_str("RET"),
        Branch::RetFarPop { size } => put_return(line, size),
        Branch::BrNear { disp } => put_target(line, "BR", next, disp),
        Branch::BrShort { disp } => put_target(line, "BR", next, disp),
        Branch::BrTo { to } => put_place(line, "BR", true, to),
        Branch::BrFar { ps, pc } => put_far(line, "BR", ps, pc),
        Branch::BrFarAt { at } => put_far_at(line, "BR", at),
    }
}

// Three letters a name; a name of two is followed by a space.
const CONDITIONS: &str = "BV BNVBC BNCBE BNEBNHBH BN BP BPEBPOBLTBGEBLEBGT";

fn put_condition(line: &mut Line, n: u8)
    ensures { AddsTo (words.condition_name n) line }
{
    let names = CONDITIONS.as_bytes();
    let i = 3 * (n % 16) as usize;
    let last = names[i + 2];
    line.push(names[i]);
    line.push(names[i + 1]);
    if last != b' ' {
        line.push(last);
    }
}

fn put_if(line: &mut Line, next: u32, condition: u8, disp: u16)
    ensures { AddsTo (words.one (words.condition_name condition) (words.target next disp)) line }
{
    put_condition(line, condition);
    put_after(line, target(next, disp));
}

fn put_conditional(line: &mut Line, next: u32, i: Conditional)
    ensures { AddsTo (words.conditional_text next i) line }
{
    match i {
        Conditional::If { condition, disp } => put_if(line, next, condition, disp),
        Conditional::Dbnzne { disp } => put_target(line, "DBNZNE", next, disp),
        Conditional::Dbnze { disp } => put_target(line, "DBNZE", next, disp),
        Conditional::Dbnz { disp } => put_target(line, "DBNZ", next, disp),
        Conditional::Bcwz { disp } => put_target(line, "BCWZ", next, disp),
    }
}

pub fn put_move(line: &mut Line, next: u32, i: Move)
    ensures { AddsTo (words.move_text next i) line }
{
    match i {
        Move::Transfers(i) => put_transfer(line, i),
        Move::Stacks(i) => put_stack(line, i),
        Move::Branches(i) => put_branch(line, next, i),
        Move::Tests(i) => put_conditional(line, next, i),
    }
}
