// A reading done, by its kind.
#![tactic(auto)]

mod registers;
mod shared;

ghost use Rattle.std.specs.Prelude.{◌≡◌, false, get_or};
ghost use Rattle.sheet.specs.Registers.{PC};
ghost use Rattle.sheet.specs.Execute.{operation, execute};
ghost use Rattle.quick_place.specs.Packed.{size_of};
ghost use Rattle.quick_pack.specs.Readings.{at_port, instr_of};
ghost use Rattle.quick_perform.specs.Tries.{TriesOn};

use mach_registers::PC;
use quick_place::{Kind, Reading};
use sheet::{Bus, Conditional};

// PC stands on the next instruction.
fn operate(file: &mut [u16; 14], ram: &mut [u8], rom: &[u8], r: Reading, start: u16) -> Bus
    requires { at_port r.bits ≡ false }
    ensures { TriesOn (operation (instr_of r.bits) start) file ram rom result 384 }
{
    match r.kind() {
        Kind::General | Kind::In | Kind::Out | Kind::Stream => mach_tally::none(),
        Kind::AluRegReg => {
            quick_do::alu_rr(file, r);
            mach_tally::none()
        }
        Kind::AluRegMem => quick_memory::alu_rm(file, ram, rom, r),
        Kind::AluMemReg => quick_memory::alu_mr(file, ram, rom, r),
        Kind::MovRegReg => {
            quick_do::mov_rr(file, r);
            mach_tally::none()
        }
        Kind::MovRegMem => quick_memory::mov_rm(file, ram, rom, r),
        Kind::MovMemReg => quick_memory::mov_mr(file, ram, rom, r),
        Kind::MovRegImm => {
            quick_do::mov_ri(file, r);
            mach_tally::none()
        }
        Kind::PushReg => quick_memory::push_r(file, ram, rom, r),
        Kind::PopReg => quick_memory::pop_r(file, ram, rom, r),
        Kind::BranchIf => {
            quick_do::branch_if(file, r);
            mach_tally::none()
        }
        Kind::CallNear => quick_memory::call(file, ram, rom, r),
        Kind::Ret => quick_memory::ret(file, ram, rom),
        Kind::AluRegImm => {
            quick_do::alu_ri(file, r);
            mach_tally::none()
        }
        Kind::AluMemImm => quick_memory::alu_mi(file, ram, rom, r),
        Kind::MovMemImm => quick_memory::mov_mi(file, ram, rom, r),
        Kind::UnaryReg => {
            quick_do::one_r(file, r);
            mach_tally::none()
        }
        Kind::UnaryMem => quick_memory::one_m(file, ram, rom, r),
        Kind::BrNear | Kind::BrShort => {
            quick_do::br(file, r);
            mach_tally::none()
        }
        Kind::Dbnz => {
            quick_do::dbnz(file, r);
            mach_tally::none()
        }
        Kind::ShiftRegOne => {
            quick_shift::one_r(file, r);
            mach_tally::none()
        }
        Kind::ShiftMemOne => quick_shift::one_m(file, ram, rom, r),
        Kind::LoadAcc => quick_memory::load_acc(file, ram, rom, r),
        Kind::StoreAcc => quick_memory::store_acc(file, ram, rom, r),
        Kind::TestRegReg => {
            quick_do::test_rr(file, r);
            mach_tally::none()
        }
        Kind::TestRegImm => {
            quick_do::test_ri(file, r);
            mach_tally::none()
        }
        Kind::Block => shared::block(file, ram, rom, r, start),
        Kind::DecimalString => shared::string(file, ram, rom, r),
        Kind::Convert => {
            shared::convert(file, r);
            mach_tally::none()
        }
        Kind::MultiplyReg => shared::multiply(file, ram, rom, r),
        Kind::Bcwz => {
            do_conditional::conditional(file, Conditional::Bcwz { disp: r.disp() });
            mach_tally::none()
        }
        Kind::ShiftRegCounted => shared::shift_r(file, ram, rom, r),
        Kind::ShiftMemCounted => shared::shift_m(file, ram, rom, r),
        Kind::Ldea => {
            registers::ldea(file, r);
            mach_tally::none()
        }
        Kind::XchRegReg => {
            registers::xch(file, r);
            mach_tally::none()
        }
        Kind::MovRegSegment => {
            registers::from_segment(file, r);
            mach_tally::none()
        }
        Kind::BrFar => {
            registers::br_far(file, r);
            mach_tally::none()
        }
        Kind::Dbnzne => {
            do_conditional::conditional(file, Conditional::Dbnzne { disp: r.disp() });
            mach_tally::none()
        }
        Kind::Dbnze => {
            do_conditional::conditional(file, Conditional::Dbnze { disp: r.disp() });
            mach_tally::none()
        }
    }
}

// A reading done, with PC moved past it. `start` is PC, which the caller has at hand.
pub fn perform(file: &mut [u16; 14], ram: &mut [u8], rom: &[u8], r: Reading, start: u16) -> Bus
    requires { (at_port r.bits ≡ false) × (start ≡ get_or file.old PC 0) }
    ensures { TriesOn (execute (instr_of r.bits) (size_of r.bits)) file ram rom result 1020 }
{
    file[PC] = calc_word::plus16(start, r.size());
    operate(file, ram, rom, r, start)
}
