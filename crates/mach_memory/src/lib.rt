// The address space in code: RAM from address 0, ROM up to FFFFFh, FFh elsewhere.
#![tactic(auto)]

ghost use Rattle.std.specs.Prelude.{◌≡◌, ◌<◌};
ghost use Rattle.sheet.specs.Width.{mod_of};
ghost use Rattle.sheet.specs.Memory.{physical, byte_at, read_mem};
ghost use Rattle.mach_memory.specs.Accesses.{Lands, Missed, Writes, Loads, Stores};

use sheet::Bus;

// The address of an offset in a segment.
pub fn address(base: u16, offset: u16) -> usize
    ensures { result ≡ physical base offset }
{
    ((base as usize) * 16 + (offset as usize)) % 1048576
}

// The byte at an offset of a segment.
pub fn read_byte(ram: &[u8], rom: &[u8], base: u16, offset: u16) -> u8
    ensures { result ≡ byte_at ram.now rom.now (physical base offset) }
{
    let a = address(base, offset);
    if a < ram.len() {
        return ram[a];
    }
    if 1048576 <= a + rom.len() {
        return rom[a + rom.len() - 1048576];
    }
    255
}

// Writes a byte, and says whether it landed; outside RAM the write is dropped.
fn write_byte(ram: &mut [u8], base: u16, offset: u16, v: u8) -> bool
    ensures { Lands ram.old (physical base offset) v ram.new result }
{
    let a = address(base, offset);
    if a < ram.len() {
        ram[a] = v;
        return true;
    }
    false
}

// A byte that did not land, as a number.
fn missed(landed: bool) -> u32
    ensures { Missed landed result }
{
    u32::from(!landed)
}

// A byte, or a word with its low byte first.
pub fn read(word: bool, ram: &[u8], rom: &[u8], base: u16, offset: u16) -> u16
    ensures { (result ≡ read_mem word ram.now rom.now base offset) × (result < mod_of word) }
{
    let low = read_byte(ram, rom, base, offset) as u16;
    if word {
        let next = offset.wrapping_add(1);
        return low + 256 * (read_byte(ram, rom, base, next) as u16);
    }
    low
}

// How many of its bytes were dropped.
pub fn write(word: bool, ram: &mut [u8], base: u16, offset: u16, v: u16) -> u32
    ensures { Writes word ram.old base offset v ram.new result }
{
    let low = missed(write_byte(ram, base, offset, (v % 256) as u8));
    if word {
        let next = offset.wrapping_add(1);
        return low + missed(write_byte(ram, base, next, (v / 256 % 256) as u8));
    }
    low
}

// A number that was read, and what reading it came to on the bus.
#[derive(Clone, Copy)]
pub struct Loaded {
    pub value: u16,
    pub bus: Bus,
}

pub fn load(word: bool, ram: &[u8], rom: &[u8], base: u16, offset: u16) -> Loaded
    ensures { Loads word ram.now rom.now base offset result.value result.bus }
{
    Loaded {
        value: read(word, ram, rom, base, offset),
        bus: mach_tally::of_access(word, offset),
    }
}

pub fn store(word: bool, ram: &mut [u8], base: u16, offset: u16, v: u16) -> Bus
    ensures { Stores word ram.old base offset v ram.new result }
{
    let dropped = write(word, ram, base, offset, v);
    mach_tally::of_write(word, offset, dropped)
}
