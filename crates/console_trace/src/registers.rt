// Registers and flags by name: all, or those that changed.
ghost use Rattle.std.specs.Prelude.{◌<◌};

use base_line::Line;
use rom_mnemonic::Operand;

// A register by its number.
fn register(number: u8) -> Operand {
    if number < 8 {
        return Operand::Reg { word: true, number };
    }
    Operand::Seg(number - 8)
}

fn put_register(line: &mut Line, number: u8, value: u16) {
    line.push(b' ');
    rom_mnemonic::put_after(line, register(number));
    line.push(b' ');
    line.push_hex(value as u64, 4);
}

// Of the registers from one number up to another those that changed, or all.
fn put_span(line: &mut Line, from: u8, to: u8, a: &[u16; 14], b: &[u16; 14], always: bool)
    requires { to < 14 }
{
    for n in from..to {
        let i = n as usize;
        if always || a[i] != b[i] {
            put_register(line, n, b[i]);
        }
    }
}

// The segment registers: PS, SS, DS0 and last DS1, whose number is the lowest.
pub fn put_segments(line: &mut Line, a: &[u16; 14], b: &[u16; 14], always: bool) {
    put_span(line, 9, 12, a, b, always);
    put_span(line, 8, 9, a, b, always);
}

// The registers of data, pointers and indices.
pub fn put_general(line: &mut Line, a: &[u16; 14], b: &[u16; 14], always: bool) {
    put_span(line, 0, 8, a, b, always);
}

// The registers that changed, without PC and PSW.
pub fn put_registers(line: &mut Line, a: &[u16; 14], b: &[u16; 14]) {
    put_general(line, a, b, false);
    put_segments(line, a, b, false);
}

// A flag, whose bit has this weight: where it has changed, or always.
fn put_flag(line: &mut Line, name: &str, weight: u16, a: u16, b: u16, always: bool)
    requires { 0 < weight }
{
    let new = b / weight % 2;
    if always || a / weight % 2 != new {
        line.push_str(name);
        line.push_hex(new as u64, 1);
    }
}

// The flags of PSW by name: those that changed, or all; the mode where it changed.
pub fn put_flags(line: &mut Line, a: u16, b: u16, always: bool) {
    put_flag(line, "  MD ", 32768, a, b, false);
    put_flag(line, "  V ", 2048, a, b, always);
    put_flag(line, "  DIR ", 1024, a, b, always);
    put_flag(line, "  IE ", 512, a, b, always);
    put_flag(line, "  BRK ", 256, a, b, always);
    put_flag(line, "  S ", 128, a, b, always);
    put_flag(line, "  Z ", 64, a, b, always);
    put_flag(line, "  AC ", 16, a, b, always);
    put_flag(line, "  P ", 4, a, b, always);
    put_flag(line, "  CY ", 1, a, b, always);
}
