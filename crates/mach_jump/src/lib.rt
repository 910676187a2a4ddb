// PC and PS set anew.
#![tactic(auto)]

ghost use Rattle.sheet.specs.Traps.{jump_far};
ghost use Rattle.sheet.specs.Branch as tree;
ghost use Rattle.sheet.specs.Contract.{OnFile};

use mach_registers::{PC, PS};

// By a displacement from the next instruction.
pub fn jump(file: &mut [u16; 14], disp: u16)
    ensures { OnFile Unit (tree.jump disp) file.old tt file.new }
{
    file[PC] = calc_word::plus16(file[PC], disp);
}

pub fn jump_far(file: &mut [u16; 14], ps: u16, pc: u16)
    ensures { OnFile Unit (jump_far ps pc) file.old tt file.new }
{
    file[PS] = ps;
    file[PC] = pc;
}
