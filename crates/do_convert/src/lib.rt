// ADJ4A, ADJ4S, ADJBA, ADJBS, CVTBD, CVTDB, CVTBW, CVTWL.
#![tactic(auto)]

ghost use Rattle.sheet.specs.Adjust as adjust;
ghost use Rattle.sheet.specs.Contract.{OnFile};
ghost use Rattle.sheet.specs.Convert as sheet;

use mach_registers::{AW, DW, PSW};
use sheet::{Convert, Way};

// ADJ4A or ADJ4S.
fn adj4(file: &mut [u16; 14], way: Way)
    ensures { OnFile Unit (adjust.adj4 way) file.old tt file.new }
{
    let al = mach_registers::reg(false, file, 0);
    let x = calc_convert::adj4(way, al, file[PSW]);
    file[PSW] = x.psw;
    mach_registers::set_reg(false, file, 0, x.value);
}

// ADJBA or ADJBS.
fn adjb(file: &mut [u16; 14], way: Way)
    ensures { OnFile Unit (adjust.adjb way) file.old tt file.new }
{
    let x = calc_convert::adjb(way, file[AW], file[PSW]);
    file[PSW] = x.psw;
    file[AW] = x.value;
}

fn cvtbd(file: &mut [u16; 14])
    ensures { OnFile Unit sheet.cvtbd file.old tt file.new }
{
    let x = calc_convert::cvtbd(file[AW], file[PSW]);
    file[PSW] = x.psw;
    file[AW] = x.value;
}

fn cvtdb(file: &mut [u16; 14])
    ensures { OnFile Unit sheet.cvtdb file.old tt file.new }
{
    let x = calc_convert::cvtdb(file[AW], file[PSW]);
    file[PSW] = x.psw;
    file[AW] = x.value;
}

fn cvtbw(file: &mut [u16; 14])
    ensures { OnFile Unit sheet.cvtbw file.old tt file.new }
{
    file[AW] = calc_convert::cvtbw(file[AW]);
}

fn cvtwl(file: &mut [u16; 14])
    ensures { OnFile Unit sheet.cvtwl file.old tt file.new }
{
    file[DW] = calc_convert::cvtwl(file[AW]);
}

#[tactic(auto, unfolding(sheet::specs::Convert::convert))]
pub fn convert(file: &mut [u16; 14], i: Convert)
    ensures { OnFile Unit (sheet.convert i) file.old tt file.new }
{
    match i {
        Convert::Adjba => adjb(file, Way::Addition),
        Convert::Adj4a => adj4(file, Way::Addition),
        Convert::Adjbs => adjb(file, Way::Subtraction),
        Convert::Adj4s => adj4(file, Way::Subtraction),
        Convert::Cvtbd => cvtbd(file),
        Convert::Cvtdb => cvtdb(file),
        Convert::Cvtbw => cvtbw(file),
        Convert::Cvtwl => cvtwl(file),
    }
}
