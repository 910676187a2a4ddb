// What a person sees of a machine: the instruction at PS:PC in the listing's words, registers and flags by name, and the line of a step.
// Texts go into lines of 80 bytes, where what does not fit is left out.
#![tactic(auto)]

mod registers;
pub mod seen;
pub mod target;

use base_line::Line;
use code_answer::Decoded;
use mach_registers::{BP, PC, PS, PSW, SP, SS};
use sheet::{Entry, GapRule, Instr, State};
use std::io::Write;
use std::num::wrapping_add_u16;
use target::Target;

// A line of spaces.
pub fn blank() -> [u8; 80] {
    [b' '; 80]
}

// Writes a line's text up to its end.
pub fn write(out: &mut impl Write, line: [u8; 80], end: usize) -> bool {
    let n = console_files::within(end, &line);
    out.write_all(&line[..n]).is_ok()
}

// Writes a line's text.
pub fn write_text(out: &mut impl Write, line: &Line) -> bool {
    out.write_all(line.as_bytes()).is_ok()
}

// A number in decimal digits.
pub fn push_decimal(line: &mut Line, n: u64) {
    let mut digits = [0u8; 20];
    let k = io::decimal(n, &mut digits);
    line.push_bytes(&digits[..k]);
}

// The same behind what ends at a place of a line: where it ends.
pub fn put_decimal(line: &mut [u8; 80], at: usize, n: u64) -> usize {
    let mut digits = [0u8; 20];
    let k = io::decimal(n, &mut digits);
    base_line::put_word(line, at, &digits[..k])
}

// Where a number begins so that it ends in column 8, if it has no more digits.
fn begin(n: u64) -> usize {
    8usize.saturating_sub(io::decimal(n, &mut [0u8; 20]))
}

// The code byte at an offset.
fn put_code(line: &mut Line, ps: u16, pc: u16, ram: &[u8], rom: &[u8]) {
    line.push_hex(mach_memory::read_byte(ram, rom, ps, pc) as u64, 2);
}

// PSW's bit 15 is the mode.
fn is_native(psw: u16) -> bool {
    32768 <= psw
}

// What stands behind an instruction: its bytes, up to three, where the mode is that of the 8080.
fn put_behind(line: &mut Line, file: &[u16; 14], size: u16, ram: &[u8], rom: &[u8]) {
    if is_native(file[PSW]) {
        return;
    }
    line.push(b' ');
    for i in 0..size.clamp(1, 3) {
        put_code(line, file[PS], wrapping_add_u16(file[PC], i), ram, rom);
    }
}

// Each function that puts an instruction answers where the instruction writes.

fn put_known(
    line: &mut Line,
    file: &[u16; 14],
    instr: Instr,
    size: u16,
    ram: &[u8],
    rom: &[u8],
) -> Target {
    let next = mach_memory::address(file[PS], wrapping_add_u16(file[PC], size));
    rom_words::put_words(line, next as u32, instr);
    put_behind(line, file, size, ram, rom);
    target::of(file, instr)
}

// A byte that begins no instruction, as the listing has it.
fn put_unknown(line: &mut Line, b: u8) -> Target {
    line.push_str("DB ");
    line.push_hex(b as u64, 2);
    Target::Stack
}

// The instruction at PS:PC.
fn put_decoded(line: &mut Line, file: &[u16; 14], ram: &[u8], rom: &[u8]) -> Target {
    let ps = file[PS];
    let pc = file[PC];
    match code_mode::decode(is_native(file[PSW]), ram, rom, ps, pc) {
        Ok(Decoded { instr, size }) => put_known(line, file, instr, size, ram, rom),
        Err(_) => put_unknown(line, mach_memory::read_byte(ram, rom, ps, pc)),
    }
}

// The address PS:PC and the instruction there.
fn put_there(line: &mut Line, file: &[u16; 14], ram: &[u8], rom: &[u8]) -> Target {
    let a = mach_memory::address(file[PS], file[PC]);
    line.push_hex(a as u64, 5);
    line.push(b' ');
    put_decoded(line, file, ram, rom)
}

// ---- what a step did outside the registers

// The bus cycles of a step or a call, the bytes that it dropped, and where it writes.
#[derive(Clone, Copy)]
pub struct Traffic {
    pub cycles: u64,
    pub dropped: u64,
    pub to: Target,
}

fn put_cycles(line: &mut Line, cycles: u64) {
    if cycles > 0 {
        line.push_str("  bus ");
        push_decimal(line, cycles);
    }
}

// Where bytes go: on the stack of either mode that is its end, as it is afterwards.
fn place_of(to: Target, file: &[u16; 14]) -> usize {
    match to {
        Target::At(a) => a,
        Target::Stack => mach_memory::address(file[SS], file[SP]),
        Target::CardStack => mach_memory::address(file[target::DS0], file[BP]),
    }
}

// The bytes that were dropped, and where they were to go.
fn put_drops(line: &mut Line, bus: Traffic, file: &[u16; 14]) {
    if bus.dropped > 0 {
        line.push_str("  dropped ");
        push_decimal(line, bus.dropped);
        line.push_str(" to ");
        line.push_hex(place_of(bus.to, file) as u64, 5);
    }
}

// The record that a step wrote at a place of the log.
fn put_record(line: &mut Line, log: &[u8], place: usize) {
    if let Entry::Record { key, value, .. } = log_reader::read_log(log, place, GapRule::New) {
        line.push_str(if key % 2 == 0 { "  IN " } else { "  OUT " });
        line.push_hex(key / 4, 4);
        line.push(b' ');
        line.push_hex(value, if key % 4 < 2 { 2 } else { 4 });
    }
}

// Flags that changed, bus cycles and the port record.
fn put_effects(line: &mut Line, s: State, t: State, cycles: u64, log: &[u8]) {
    let a = s.file;
    let b = t.file;
    registers::put_flags(line, a[PSW], b[PSW], false);
    put_cycles(line, cycles);
    if s.progress.log != t.progress.log {
        put_record(line, log, s.progress.log);
    }
}

// ---- the lines of a trace

// Where the words of a line begin, behind the number of the step, and where the changes begin, behind words of any usual length.
const WORDS: usize = 9;

const CHANGES: usize = 48;

// The words of a step that is to be done: their line, where they end, and where the step writes.
#[derive(Clone, Copy)]
pub struct Words {
    pub line: [u8; 80],
    pub end: usize,
    pub to: Target,
}

pub fn no_words() -> Words {
    Words {
        line: blank(),
        end: 0,
        to: Target::Stack,
    }
}

// A line's text, and spaces behind it.
fn padded(line: &Line) -> [u8; 80] {
    let mut bytes = blank();
    base_line::put_word(&mut bytes, 0, line.as_bytes());
    bytes
}

// The instruction that a state is about to do, with room before it for the number of its step.
pub fn next_words(s: State, ram: &[u8], rom: &[u8]) -> Words {
    let mut line = Line::new();
    line.push_spaces(WORDS);
    let to = put_there(&mut line, &s.file, ram, rom);
    Words {
        line: padded(&line),
        end: line.len(),
        to,
    }
}

// A line: its words, and behind them what a step or a call changed. Where that is nothing no spaces stand at the end.
fn write_line(
    out: &mut impl Write,
    words: [u8; 80],
    end: usize,
    s: State,
    t: State,
    bus: Traffic,
    log: &[u8],
) -> bool {
    let mut changes = Line::new();
    registers::put_registers(&mut changes, &s.file, &t.file);
    let mut effects = Line::new();
    put_effects(&mut effects, s, t, bus.cycles, log);
    let mut drops = Line::new();
    put_drops(&mut drops, bus, &t.file);
    let is_changed = changes.len() > 0 || effects.len() > 0 || drops.len() > 0;
    let pad = if is_changed { end.max(CHANGES) } else { end };
    drops.push(b'\n');
    write(out, words, pad)
        & (write_text(out, &changes) & (write_text(out, &effects) & write_text(out, &drops)))
}

// The line of a step, whose words were put before it was done. A number that is too long for its column covers what it must of the words.
pub fn write_step(
    out: &mut impl Write,
    words: Words,
    step: u64,
    s: State,
    t: State,
    bus: Traffic,
    log: &[u8],
) -> bool {
    let mut line = words.line;
    put_decimal(&mut line, begin(step), step);
    write_line(out, line, words.end, s, t, bus, log)
}

// The line of an interrupt call.
pub fn write_call(
    out: &mut impl Write,
    vector: u64,
    refused: bool,
    s: State,
    t: State,
    bus: Traffic,
    log: &[u8],
) -> bool {
    let mut line = Line::new();
    line.push_spaces(WORDS);
    line.push_str("interrupt ");
    push_decimal(&mut line, vector);
    if refused {
        line.push_str(" refused");
    }
    write_line(out, padded(&line), line.len(), s, t, bus, log)
}

// ---- the end of a session

// A line without the two spaces that it begins with.
fn write_behind(out: &mut impl Write, line: &Line) -> bool {
    match line.as_bytes().get(2..) {
        Some(text) => out.write_all(text).is_ok(),
        None => true,
    }
}

// All registers: two lines.
pub fn write_registers(out: &mut impl Write, file: [u16; 14]) -> bool {
    let mut general = Line::new();
    registers::put_general(&mut general, &file, &file, true);
    general.push(b'\n');
    let mut others = Line::new();
    registers::put_segments(&mut others, &file, &file, true);
    others.push_str("  PC ");
    others.push_hex(file[PC] as u64, 4);
    others.push_str("  PSW ");
    others.push_hex(file[PSW] as u64, 4);
    others.push(b'\n');
    write_behind(out, &general) & write_behind(out, &others)
}

// The instruction that would be next, and the flags: two lines.
pub fn write_stand(out: &mut impl Write, s: State, ram: &[u8], rom: &[u8]) -> bool {
    let file = s.file;
    let psw = file[PSW];
    let mut flags = Line::new();
    flags.push_str("flags");
    registers::put_flags(&mut flags, psw, psw, true);
    flags.push(b'\n');
    let mut next = Line::new();
    next.push_str("at ");
    put_there(&mut next, &file, ram, rom);
    next.push(b'\n');
    write_text(out, &flags) & write_text(out, &next)
}
