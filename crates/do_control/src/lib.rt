// HALT, NOP, DI, EI, and CLR1, SET1, NOT1 of CY and DIR.
#![tactic(auto)]

ghost use Rattle.do_control.specs.Controls.{Controls};

use calc_flags::{CY, flag};
use mach_registers::PSW;
use sheet::{Control, Marks};

// Returns the marks afterwards.
pub fn control(file: &mut [u16; 14], m: Marks, i: Control) -> Marks
    ensures { Controls i file.old m file.new result }
{
    match i {
        Control::Nop => m,
        Control::Halt => mach_marks::halting(m),
        Control::Di => {
            file[PSW] = calc_psw::with_ie(false, file[PSW]);
            m
        }
        Control::Ei => {
            file[PSW] = calc_psw::with_ie(true, file[PSW]);
            m
        }
        Control::ClrCy => {
            file[PSW] = calc_psw::with_cy(false, file[PSW]);
            m
        }
        Control::SetCy => {
            file[PSW] = calc_psw::with_cy(true, file[PSW]);
            m
        }
        Control::NotCy => {
            let c = flag::<CY>(file[PSW]);
            file[PSW] = calc_psw::with_cy(!c, file[PSW]);
            m
        }
        Control::ClrDir => {
            file[PSW] = calc_psw::with_dir(false, file[PSW]);
            m
        }
        Control::SetDir => {
            file[PSW] = calc_psw::with_dir(true, file[PSW]);
            m
        }
    }
}
