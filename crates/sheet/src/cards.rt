// The types of the instructions of the 8080 mode, the cards (02 m). A register pair is the number of its word register: CW, DW, BW, BP.
use crate::{Control, Io, Operation, Place, Shift, Source, Transfer};

// LDAX and STAX: AL and the byte that a pair points at.
#[derive(Clone, Copy)]
pub enum CardPoint {
    Ldax { pair: u8 },
    Stax { pair: u8 },
}

#[derive(Clone, Copy)]
pub enum CardArithmetic {
    // AL and a source: ADD to CMP, ADI to CPI
    Two { op: Operation, from: Source },
    Inr { to: Place },
    Dcr { to: Place },
    Inx { pair: u8 },
    Dcx { pair: u8 },
    Dad { pair: u8 },
    // RLC, RRC, RAL, RAR
    Rotate { kind: Shift },
    Daa,
    Cma,
}

// The conditions are native ones, by the low four bits of 70 to 7F.
#[derive(Clone, Copy)]
pub enum CardBranch {
    Jmp { to: u16 },
    JumpIf { condition: u8, to: u16 },
    Call { to: u16 },
    CallIf { condition: u8, to: u16 },
    Ret,
    RetIf { condition: u8 },
    Rst { number: u8 },
    Pchl,
}

#[derive(Clone, Copy)]
pub enum CardStack {
    Push { pair: u8 },
    PushPsw,
    Pop { pair: u8 },
    PopPsw,
    Xthl,
}

// What changes the mode.
#[derive(Clone, Copy)]
pub enum CardMode {
    Calln { vector: u8 },
    Retem,
}

#[derive(Clone, Copy)]
pub enum Card {
    // native instructions
    Transfers(Transfer),
    Ports(Io),
    Controls(Control),
    // the uPD8080AF's own
    Points(CardPoint),
    Calculates(CardArithmetic),
    Branches(CardBranch),
    Stacks(CardStack),
    Modes(CardMode),
}
