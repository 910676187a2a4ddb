// What bytes name: an instruction, made of one of its groups, and how many bytes it has.
#![tactic(auto)]

mod cards;

ghost use Rattle.std.specs.Prelude.{◌≡◌};
ghost use Rattle.sheet.specs.declared.Instr.TheVariants.{Computes, Moves, Multiplies, Interrupts, Ports, Controls, Blocks, Modes};
ghost use Rattle.sheet.specs.Groups.{Transfers, Calculates, Converts, Stacks, Branches, Tests};
ghost use Rattle.code_answer.specs.Answer.{known_as};

use sheet::{
    Arithmetic, Branch, Compute, Conditional, Control, Convert, Instr, Interrupt, Io, Mode, Move,
    Multiply, Primitive, Refusal, Repeat, Stack, Transfer,
};

// Numbers of segments, as the codes of section 8 have them.
pub const DS1: u8 = 0;

pub const PS: u8 = 1;

pub const SS: u8 = 2;

pub const DS0: u8 = 3;

// The number of AW and AL.
pub const ACC: u8 = 0;

// An instruction, of native mode where nothing else is said, and how many bytes it has.
#[derive(Clone, Copy)]
pub struct Decoded<I = Instr> {
    pub instr: I,
    pub size: u16,
}

// A group of instructions, each of which is one of all instructions.
pub trait Group<I> {
    ghost instr: { Self → I };

    fn instr(self) -> I
        ensures { result ≡ instr self };
}

impl Group<Instr> for Instr {
    ghost instr = { λ i. i };

    fn instr(self) -> Instr {
        self
    }
}

impl Group<Instr> for Compute {
    ghost instr = { Computes };

    fn instr(self) -> Instr {
        Instr::Computes(self)
    }
}

impl Group<Instr> for Move {
    ghost instr = { Moves };

    fn instr(self) -> Instr {
        Instr::Moves(self)
    }
}

impl Group<Instr> for Transfer {
    ghost instr = { Transfers };

    fn instr(self) -> Instr {
        Instr::Moves(Move::Transfers(self))
    }
}

impl Group<Instr> for Arithmetic {
    ghost instr = { Calculates };

    fn instr(self) -> Instr {
        Instr::Computes(Compute::Calculates(self))
    }
}

impl Group<Instr> for Multiply {
    ghost instr = { Multiplies };

    fn instr(self) -> Instr {
        Instr::Multiplies(self)
    }
}

impl Group<Instr> for Convert {
    ghost instr = { Converts };

    fn instr(self) -> Instr {
        Instr::Computes(Compute::Converts(self))
    }
}

impl Group<Instr> for Stack {
    ghost instr = { Stacks };

    fn instr(self) -> Instr {
        Instr::Moves(Move::Stacks(self))
    }
}

impl Group<Instr> for Branch {
    ghost instr = { Branches };

    fn instr(self) -> Instr {
        Instr::Moves(Move::Branches(self))
    }
}

impl Group<Instr> for Conditional {
    ghost instr = { Tests };

    fn instr(self) -> Instr {
        Instr::Moves(Move::Tests(self))
    }
}

impl Group<Instr> for Interrupt {
    ghost instr = { Interrupts };

    fn instr(self) -> Instr {
        Instr::Interrupts(self)
    }
}

impl Group<Instr> for Io {
    ghost instr = { Ports };

    fn instr(self) -> Instr {
        Instr::Ports(self)
    }
}

impl Group<Instr> for Control {
    ghost instr = { Controls };

    fn instr(self) -> Instr {
        Instr::Controls(self)
    }
}

impl Group<Instr> for Mode {
    ghost instr = { Modes };

    fn instr(self) -> Instr {
        Instr::Modes(self)
    }
}

// The answer for bytes that name an instruction: its callers have no local of that type, which is large to the prover.
pub fn known<I, G: Group<I>>(group: G, size: u16) -> Result<Decoded<I>, Refusal>
    ensures { result ≡ known_as (G.instr group) size }
{
    Ok(Decoded {
        instr: group.instr(),
        size,
    })
}

pub fn blocks(
    primitive: Primitive,
    word: bool,
    seg: u8,
    repeat: Repeat,
    size: u16,
) -> Result<Decoded, Refusal>
    ensures { result ≡ known_as (Blocks primitive word seg repeat) size }
{
    known(
        Instr::Blocks {
            primitive,
            word,
            seg,
            repeat,
        },
        size,
    )
}
