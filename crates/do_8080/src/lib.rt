// Every instruction of the 8080 mode, by groups.
#![tactic(auto)]

ghost use Rattle.sheet.specs.Execute.{carding};
ghost use Rattle.do_8080.specs.Lent.{CardsOn};

use sheet::cards::Card;
use sheet::{Marks, Progress, Refusal};
use step_answer::Advanced;

// PC stands on the next instruction.
pub fn card(
    file: &mut [u16; 14],
    ram: &mut [u8],
    rom: &[u8],
    tape: &[u8],
    log: &mut [u8],
    marks: Marks,
    progress: Progress,
    i: Card,
) -> Result<Advanced, Refusal>
    ensures { CardsOn (carding i) file ram rom tape log marks progress result 8 }
{
    let quiet = Advanced {
        marks,
        progress,
        bus: mach_tally::none(),
    };
    match i {
        Card::Transfers(t) => Ok(Advanced {
            bus: do_transfer::transfer(file, ram, rom, t),
            ..quiet
        }),
        Card::Ports(t) => {
            let r = do_port::access(file, ram, rom, tape, log, progress, t)?;
            Ok(Advanced {
                progress: r.progress,
                bus: r.bus,
                ..quiet
            })
        }
        Card::Controls(t) => {
            let h = do_control::control(file, marks, t);
            Ok(Advanced { marks: h, ..quiet })
        }
        Card::Points(t) => Ok(Advanced {
            bus: do_8080_arith::point(file, ram, rom, t),
            ..quiet
        }),
        Card::Calculates(t) => Ok(Advanced {
            bus: do_8080_arith::calculate(file, ram, rom, t),
            ..quiet
        }),
        Card::Branches(t) => Ok(Advanced {
            bus: do_8080_branch::branch(file, ram, rom, t),
            ..quiet
        }),
        Card::Stacks(t) => Ok(Advanced {
            bus: do_8080_stack::stack(file, ram, rom, t),
            ..quiet
        }),
        Card::Modes(t) => {
            let r = do_mode::card_mode(file, ram, rom, marks, t);
            Ok(Advanced {
                marks: r.marks,
                bus: r.bus,
                ..quiet
            })
        }
    }
}
