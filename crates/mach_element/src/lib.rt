// What the block primitives are made of: the elements due, the index registers, and how a repeat goes on.
#![tactic(auto)]

ghost use Rattle.std.specs.Prelude.{◌≡◌, ◌<◌, Bool, ℕ};
ghost use Rattle.sheet.specs.Registers as sheet;
ghost use Rattle.sheet.specs.Block as tree;
ghost use Rattle.sheet.specs.Contract.{OnFile};
ghost use Rattle.mach_tally.specs.Lent.{Finds, Fills};
ghost use Rattle.mach_element.specs.Due.{due_of};

use calc_flags::{CY, DIR, Z, flag};
use mach_memory::Loaded;
use mach_registers::{CW, DS1, IX, IY, PC, PSW};
use sheet::{Bus, Primitive, Repeat};

// ---- the index registers

// An index one element on.
fn stepped(word: bool, down: bool, x: u16) -> u16
    ensures { result ≡ tree.stepped_of word down x }
{
    let n = calc_word::bytes(word);
    if down {
        return calc_word::minus16(x, n);
    }
    calc_word::plus16(x, n)
}

// IX or IY, by its place in the file.
pub fn step_index(word: bool, file: &mut [u16; 14], index: usize)
    ensures { OnFile Unit (tree.step_index word index) file.old tt file.new }
{
    if index < PSW {
        let down = flag::<DIR>(file[PSW]);
        file[index] = stepped(word, down, file[index]);
    }
}

// ---- the elements due

pub fn source_element(word: bool, file: &[u16; 14], ram: &[u8], rom: &[u8], seg: u8) -> Loaded
    ensures { Finds ℕ (tree.source_element word seg) file ram rom result.value result.bus 2 }
{
    let g = mach_registers::base(file, seg);
    let ix = file[IX];
    mach_memory::load(word, ram, rom, g, ix)
}

pub fn target_element(word: bool, file: &[u16; 14], ram: &[u8], rom: &[u8]) -> Loaded
    ensures { Finds ℕ (tree.target_element word) file ram rom result.value result.bus 2 }
{
    let ds1 = file[DS1];
    let iy = file[IY];
    mach_memory::load(word, ram, rom, ds1, iy)
}

pub fn set_target(word: bool, file: &[u16; 14], ram: &mut [u8], rom: &[u8], v: u16) -> Bus
    ensures { Fills Unit (tree.set_target word v) file ram rom tt result 2 }
{
    let ds1 = file[DS1];
    let iy = file[IY];
    mach_memory::store(word, ram, ds1, iy, v)
}

// ---- repeats

// What a block instruction has to do with CW as it is.
#[derive(Clone, Copy)]
pub enum Due {
    Nothing,
    Single,
    Element,
}

#[tactic(auto, unfolding(crate::specs::Due::due_of, crate::specs::Due::counted_due))]
pub fn what_is_due(cw: u16, repeat: Repeat) -> Due
    ensures { result ≡ due_of cw repeat }
{
    match repeat {
        Repeat::Once => Due::Single,
        _ if cw == 0 => Due::Nothing,
        _ => Due::Element,
    }
}

// Whether a comparison lets its repeat go on.
fn goes_on(file: &[u16; 14], repeat: Repeat) -> bool
    ensures { OnFile Bool (tree.goes_on repeat) file.now result file.now }
{
    match repeat {
        Repeat::Once => false,
        Repeat::WhileZ => flag::<Z>(file[PSW]),
        Repeat::WhileNotZ => !flag::<Z>(file[PSW]),
        Repeat::WhileCy => flag::<CY>(file[PSW]),
        Repeat::WhileNotCy => !flag::<CY>(file[PSW]),
    }
}

#[tactic(auto, using(sheet::proofs::Lifted::file_pure), unfolding(sheet::specs::Block::goes_on_after))]
fn goes_on_after(file: &[u16; 14], primitive: Primitive, repeat: Repeat) -> bool
    ensures { OnFile Bool (tree.goes_on_after primitive repeat) file.now result file.now }
{
    match primitive {
        Primitive::Cmpbk | Primitive::Cmpm => goes_on(file, repeat),
        _ => true,
    }
}

// What follows the primitive in an element: CW falls, and PC goes back unless the repeat ends.
pub fn finish_element(file: &mut [u16; 14], primitive: Primitive, repeat: Repeat, start: u16)
    ensures { OnFile Unit (tree.after_element primitive repeat start) file.old tt file.new }
{
    let cw = calc_word::minus16(file[CW], 1);
    file[CW] = cw;
    let on = goes_on_after(file, primitive, repeat);
    if on & (cw != 0) {
        file[PC] = start;
    }
}
