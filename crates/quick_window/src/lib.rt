// Eight code bytes as one number.
#![tactic(auto)]

ghost use Rattle.std.specs.Prelude.{◌≡◌, ◌+◌, ◌≤◌, length};
ghost use Rattle.sheet.specs.Step.{code_byte};
ghost use Rattle.quick_window.specs.Spelled.{Spells, listed};

fn eight(s: &[u8], a: usize) -> u64
    requires { a + 8 ≤ length s.now }
    ensures { Spells (listed s.now) a 8 result }
{
    u64::from_le_bytes([
        s[a],
        s[a + 1],
        s[a + 2],
        s[a + 3],
        s[a + 4],
        s[a + 5],
        s[a + 6],
        s[a + 7],
    ])
}

fn code(ram: &[u8], rom: &[u8], ps: u16, pc: u16, i: u16) -> u8
    ensures { result ≡ code_byte ram.now rom.now ps pc i }
{
    mach_memory::read_byte(ram, rom, ps, calc_word::plus16(pc, i))
}

fn eight_codes(ram: &[u8], rom: &[u8], ps: u16, pc: u16) -> u64
    ensures { Spells (code_byte ram.now rom.now ps pc) 0 8 result }
{
    u64::from_le_bytes([
        code(ram, rom, ps, pc, 0),
        code(ram, rom, ps, pc, 1),
        code(ram, rom, ps, pc, 2),
        code(ram, rom, ps, pc, 3),
        code(ram, rom, ps, pc, 4),
        code(ram, rom, ps, pc, 5),
        code(ram, rom, ps, pc, 6),
        code(ram, rom, ps, pc, 7),
    ])
}

// The bytes at PS:PC: at once where all lie in RAM or all in ROM and nothing wraps, else one by one.
pub fn window(ram: &[u8], rom: &[u8], ps: u16, pc: u16) -> u64
    ensures { Spells (code_byte ram.now rom.now ps pc) 0 8 result }
{
    let a = mach_memory::address(ps, pc);
    if pc < 65529 && a <= 1048568 {
        if a + 8 <= ram.len() {
            return eight(ram, a);
        }
        if ram.len() <= a && 1048576 <= a + rom.len() {
            return eight(rom, a + rom.len() - 1048576);
        }
    }
    eight_codes(ram, rom, ps, pc)
}
