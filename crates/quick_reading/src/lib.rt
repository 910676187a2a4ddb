// Readings: the instruction of a window of code bytes as one number, and the memo of readings.
#![tactic(auto)]

ghost use Rattle.std.specs.Prelude.{◌≡◌, ◌/◌, ◌%◌, ◌<◌};
ghost use Rattle.quick_reading.specs.Readings.{Means, Remembers};

use quick_place::{Fields, Kind, Reading};

// A window, and what it means.
#[derive(Clone, Copy)]
pub struct Slot {
    pub window: u64,
    pub reading: Reading,
}

// MOV reg16,imm16 without the decoder: a program that writes over its own operands writes over this one's most.
fn load_word(w: u64) -> Reading
    requires { w % 256 / 8 ≡ 0x17 }
    ensures { Means w result.bits }
{
    let code = w.to_le_bytes();
    Fields {
        kind: Kind::MovRegImm,
        size: 3,
        rm: code[0] % 8,
        word: true,
        imm: u16::from_le_bytes([code[1], code[2]]),
        ..Fields::NONE
    }
    .packed()
}

// By the decoder, which finds the window at address 0.
fn read(w: u64) -> Reading
    ensures { Means w result.bits }
{
    if w % 256 / 8 == 0x17 {
        return load_word(w);
    }
    let window = w.to_le_bytes();
    match code_decode::decode(&window, &window, 0, 0) {
        Ok(d) => quick_pack::pack(d.instr, d.size),
        Err(_) => Reading::NONE,
    }
}

// The reading of a window, from the memo where it is there.
pub fn recall(memo: &mut [Slot; 1024], pc: u16, w: u64) -> Reading
    requires { Remembers memo.old }
    ensures { Means w result.bits × Remembers memo.new }
{
    let i = usize::from(pc % 1024);
    if memo[i].window == w {
        return memo[i].reading;
    }
    let reading = read(w);
    memo[i] = Slot { window: w, reading };
    reading
}
