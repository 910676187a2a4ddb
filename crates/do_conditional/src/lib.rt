// The conditional branches and the loops. PC stands on the next instruction when these begin.
#![tactic(auto)]

ghost use Rattle.std.specs.Prelude.{Bool};
ghost use Rattle.sheet.specs.Branch as tree;
ghost use Rattle.sheet.specs.Contract.{OnFile};

use calc_flags::{CY, P, S, V, Z, flag};
use mach_registers::{CW, PSW};
use sheet::Conditional;

// BV, BC, BE, BNH, BN, BPE, BLT, BLE.
fn asked(file: &[u16; 14], n: u8) -> bool
    ensures { OnFile Bool (tree.asked n) file.now result file.now }
{
    let psw = file[PSW];
    match n / 2 % 8 {
        0 => flag::<V>(psw),
        1 => flag::<CY>(psw),
        2 => flag::<Z>(psw),
        3 => flag::<CY>(psw) | flag::<Z>(psw),
        4 => flag::<S>(psw),
        5 => flag::<P>(psw),
        6 => flag::<S>(psw) != flag::<V>(psw),
        _ => (flag::<S>(psw) != flag::<V>(psw)) | flag::<Z>(psw),
    }
}

// The odd conditions are the even ones denied.
pub fn condition(file: &[u16; 14], n: u8) -> bool
    ensures { OnFile Bool (tree.condition n) file.now result file.now }
{
    let b = asked(file, n);
    b != (n % 2 == 1)
}

fn jump_if(file: &mut [u16; 14], b: bool, disp: u16)
    ensures { OnFile Unit (tree.jump_if b disp) file.old tt file.new }
{
    if b {
        mach_jump::jump(file, disp);
    }
}

pub fn branch_if(file: &mut [u16; 14], n: u8, disp: u16)
    ensures { OnFile Unit (tree.branch_if n disp) file.old tt file.new }
{
    let b = condition(file, n);
    jump_if(file, b, disp);
}

// Whether CW is not yet 0.
fn count_down(file: &mut [u16; 14]) -> bool
    ensures { OnFile Bool tree.count_down file.old result file.new }
{
    let cw = calc_word::minus16(file[CW], 1);
    file[CW] = cw;
    cw != 0
}

// DBNZE and DBNZNE.
fn dbnz_while(file: &mut [u16; 14], wanted: bool, disp: u16)
    ensures { OnFile Unit (tree.dbnz_while wanted disp) file.old tt file.new }
{
    let b = count_down(file);
    let z = flag::<Z>(file[PSW]);
    jump_if(file, b & (z == wanted), disp);
}

fn dbnz(file: &mut [u16; 14], disp: u16)
    ensures { OnFile Unit (tree.dbnz disp) file.old tt file.new }
{
    let b = count_down(file);
    jump_if(file, b, disp);
}

fn bcwz(file: &mut [u16; 14], disp: u16)
    ensures { OnFile Unit (tree.bcwz disp) file.old tt file.new }
{
    let b = file[CW] == 0;
    jump_if(file, b, disp);
}

#[tactic(auto, unfolding(sheet::specs::Branch::conditional))]
pub fn conditional(file: &mut [u16; 14], i: Conditional)
    ensures { OnFile Unit (tree.conditional i) file.old tt file.new }
{
    match i {
        Conditional::If { condition, disp } => branch_if(file, condition, disp),
        Conditional::Dbnzne { disp } => dbnz_while(file, false, disp),
        Conditional::Dbnze { disp } => dbnz_while(file, true, disp),
        Conditional::Dbnz { disp } => dbnz(file, disp),
        Conditional::Bcwz { disp } => bcwz(file, disp),
    }
}
