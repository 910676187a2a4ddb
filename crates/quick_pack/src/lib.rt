// An instruction packed into one number.
#![tactic(auto)]

ghost use Rattle.std.specs.Prelude.{◌≡◌, ◌%◌};
ghost use Rattle.sheet.specs.declared.Instr.TheVariants.{Computes, Moves, Multiplies, Blocks, Ports};
ghost use Rattle.sheet.specs.declared.Arithmetic.TheVariants.{Two, One, Test};
ghost use Rattle.sheet.specs.declared.Place.TheVariants.{Register};
ghost use Rattle.sheet.specs.declared.Places.TheVariants.{Counted};
ghost use Rattle.sheet.specs.declared.Source.TheVariants.{Held};
ghost use Rattle.sheet.specs.declared.Transfer.TheVariants.{Mov};
ghost use Rattle.sheet.specs.Groups.{Transfers, Calculates, Converts, Shifts, Decimals, Stacks, Branches, Tests};
ghost use Rattle.quick_place.specs.Packed.{product_at, primitive_at, string_at};
ghost use Rattle.quick_pack.specs.Readings.{stream_at, port_at, at_port, Packs};

use quick_place::{Field, Fields, Kind, NO_FORM, Reading};
use sheet::{
    Amount, Arithmetic, Branch, Compute, Conditional, Convert, Decimal, Instr, Io, Move, Multiply,
    Operation, Place, Places, Port, Primitive, Repeat, Shift, Source, Stack, Transfer, Unary,
};

// Each packs an instruction of so many bytes, or gives no reading.

fn two_held(op: Operation, word: bool, to: Place, from: Place, size: u16) -> Reading
    ensures { Packs (Calculates (Two op word to (Held from))) size result.bits }
{
    match from {
        Place::Register(reg) => Fields {
            size,
            reg,
            op: op.number(),
            word,
            ..Fields::NONE
        }
        .at_place(to, Kind::AluRegReg, Kind::AluMemReg),
        Place::Memory(a) => match to {
            Place::Register(reg) => Fields {
                kind: Kind::AluRegMem,
                size,
                reg,
                op: op.number(),
                word,
                ..Fields::NONE
            }
            .at_address(a),
            Place::Memory(_) => Reading::NONE,
        },
    }
}

fn two(op: Operation, word: bool, to: Place, from: Source, size: u16) -> Reading
    ensures { Packs (Calculates (Two op word to from)) size result.bits }
{
    match from {
        Source::Held(p) => two_held(op, word, to, p, size),
        Source::Immediate(imm) => Fields {
            size,
            op: op.number(),
            word,
            imm,
            ..Fields::NONE
        }
        .at_place(to, Kind::AluRegImm, Kind::AluMemImm),
    }
}

fn one(op: Unary, word: bool, to: Place, size: u16) -> Reading
    ensures { Packs (Calculates (One op word to)) size result.bits }
{
    Fields {
        size,
        op: op.number(),
        word,
        ..Fields::NONE
    }
    .at_place(to, Kind::UnaryReg, Kind::UnaryMem)
}

fn test_register(word: bool, left: u8, right: Source, size: u16) -> Reading
    ensures { Packs (Calculates (Test word (Register left) right)) size result.bits }
{
    match right {
        Source::Held(p) => match p {
            Place::Register(reg) => Fields {
                kind: Kind::TestRegReg,
                size,
                rm: left,
                reg,
                word,
                ..Fields::NONE
            }
            .packed(),
            Place::Memory(_) => Reading::NONE,
        },
        Source::Immediate(imm) => Fields {
            kind: Kind::TestRegImm,
            size,
            rm: left,
            word,
            imm,
            ..Fields::NONE
        }
        .packed(),
    }
}

fn calculate(i: Arithmetic, size: u16) -> Reading
    ensures { Packs (Calculates i) size result.bits }
{
    match i {
        Arithmetic::Two { op, word, to, from } => two(op, word, to, from, size),
        Arithmetic::One { op, word, to } => one(op, word, to, size),
        Arithmetic::Test { word, left, right } => match left {
            Place::Register(n) => test_register(word, n, right, size),
            Place::Memory(_) => Reading::NONE,
        },
    }
}

fn shift_by(kind: Shift, word: bool, to: Place, amount: Amount, size: u16) -> Reading
    ensures { Packs (Shifts kind word to (Counted amount)) size result.bits }
{
    match amount {
        Amount::InCl => Fields {
            size,
            reg: 1,
            op: kind.number(),
            word,
            ..Fields::NONE
        }
        .at_place(to, Kind::ShiftRegCounted, Kind::ShiftMemCounted),
        Amount::Given(n) => Fields {
            size,
            op: kind.number(),
            word,
            imm: u16::from(n),
            ..Fields::NONE
        }
        .at_place(to, Kind::ShiftRegCounted, Kind::ShiftMemCounted),
    }
}

fn string(op: u8, seg: u8, size: u16) -> Reading
    ensures { Packs (Decimals (string_at (op % 8) seg)) size result.bits }
{
    Fields {
        kind: Kind::DecimalString,
        size,
        op,
        seg,
        ..Fields::NONE
    }
    .packed()
}

fn decimal(i: Decimal, size: u16) -> Reading
    ensures { Packs (Decimals i) size result.bits }
{
    match i {
        Decimal::Add4s { seg } => string(0, seg, size),
        Decimal::Sub4s { seg } => string(1, seg, size),
        Decimal::Cmp4s { seg } => string(2, seg, size),
        _ => Reading::NONE,
    }
}

fn convert(i: Convert, size: u16) -> Reading
    ensures { Packs (Converts i) size result.bits }
{
    Fields {
        kind: Kind::Convert,
        size,
        op: i.number(),
        ..Fields::NONE
    }
    .packed()
}

fn compute(i: Compute, size: u16) -> Reading
    ensures { Packs (Computes i) size result.bits }
{
    match i {
        Compute::Calculates(group) => calculate(group, size),
        Compute::Converts(group) => convert(group, size),
        Compute::Shifts {
            kind,
            word,
            to,
            places,
        } => match places {
            Places::One => Fields {
                size,
                op: kind.number(),
                word,
                ..Fields::NONE
            }
            .at_place(to, Kind::ShiftRegOne, Kind::ShiftMemOne),
            Places::Counted(amount) => shift_by(kind, word, to, amount, size),
        },
        Compute::Decimals(group) => decimal(group, size),
        _ => Reading::NONE,
    }
}

fn mov_held(word: bool, to: Place, from: Place, size: u16) -> Reading
    ensures { Packs (Transfers (Mov word to (Held from))) size result.bits }
{
    match from {
        Place::Register(reg) => Fields {
            size,
            reg,
            word,
            ..Fields::NONE
        }
        .at_place(to, Kind::MovRegReg, Kind::MovMemReg),
        Place::Memory(a) => match to {
            Place::Register(reg) => Fields {
                kind: Kind::MovRegMem,
                size,
                reg,
                word,
                ..Fields::NONE
            }
            .at_address(a),
            Place::Memory(_) => Reading::NONE,
        },
    }
}

fn mov(word: bool, to: Place, from: Source, size: u16) -> Reading
    ensures { Packs (Transfers (Mov word to from)) size result.bits }
{
    match from {
        Source::Held(p) => mov_held(word, to, p, size),
        Source::Immediate(imm) => Fields {
            size,
            word,
            imm,
            ..Fields::NONE
        }
        .at_place(to, Kind::MovRegImm, Kind::MovMemImm),
    }
}

fn transfer(i: Transfer, size: u16) -> Reading
    ensures { Packs (Transfers i) size result.bits }
{
    match i {
        Transfer::Mov { word, to, from } => mov(word, to, from, size),
        Transfer::LoadAcc { word, from } => Fields {
            kind: Kind::LoadAcc,
            size,
            word,
            ..Fields::NONE
        }
        .at_address(from),
        Transfer::StoreAcc { word, to } => Fields {
            kind: Kind::StoreAcc,
            size,
            word,
            ..Fields::NONE
        }
        .at_address(to),
        Transfer::FromSegment { to, seg } => match to {
            Place::Register(rm) => Fields {
                kind: Kind::MovRegSegment,
                size,
                rm,
                seg,
                ..Fields::NONE
            }
            .packed(),
            Place::Memory(_) => Reading::NONE,
        },
        Transfer::Ldea { reg, from } => Fields {
            kind: Kind::Ldea,
            size,
            reg,
            ..Fields::NONE
        }
        .at_address(from),
        Transfer::Xch { word, reg, with } => match with {
            Place::Register(rm) => Fields {
                kind: Kind::XchRegReg,
                size,
                rm,
                reg,
                word,
                ..Fields::NONE
            }
            .packed(),
            Place::Memory(_) => Reading::NONE,
        },
        _ => Reading::NONE,
    }
}

fn stack(i: Stack, size: u16) -> Reading
    ensures { Packs (Stacks i) size result.bits }
{
    match i {
        Stack::Push { from } => match from {
            Place::Register(pushed) => Fields {
                kind: Kind::PushReg,
                size,
                rm: pushed,
                ..Fields::NONE
            }
            .packed(),
            Place::Memory(_) => Reading::NONE,
        },
        Stack::Pop { to } => match to {
            Place::Register(rm) => Fields {
                kind: Kind::PopReg,
                size,
                rm,
                ..Fields::NONE
            }
            .packed(),
            Place::Memory(_) => Reading::NONE,
        },
        _ => Reading::NONE,
    }
}

fn branch(i: Branch, size: u16) -> Reading
    ensures { Packs (Branches i) size result.bits }
{
    match i {
        Branch::CallNear { disp } => Fields {
            kind: Kind::CallNear,
            size,
            disp,
            ..Fields::NONE
        }
        .packed(),
        Branch::Ret => Fields {
            kind: Kind::Ret,
            size,
            ..Fields::NONE
        }
        .packed(),
        Branch::BrNear { disp } => Fields {
            kind: Kind::BrNear,
            size,
            disp,
            ..Fields::NONE
        }
        .packed(),
        Branch::BrShort { disp } => Fields {
            kind: Kind::BrShort,
            size,
            disp,
            ..Fields::NONE
        }
        .packed(),
        Branch::BrFar { ps, pc } => Fields {
            kind: Kind::BrFar,
            size,
            disp: pc,
            imm: ps,
            ..Fields::NONE
        }
        .packed(),
        _ => Reading::NONE,
    }
}

fn conditional(i: Conditional, size: u16) -> Reading
    ensures { Packs (Tests i) size result.bits }
{
    match i {
        Conditional::If { condition, disp } => {
            Fields {
                kind: Kind::BranchIf,
                size,
                op: condition,
                disp,
                ..Fields::NONE
            }
            .packed()
        }
        Conditional::Dbnzne { disp } => Fields {
            kind: Kind::Dbnzne,
            size,
            disp,
            ..Fields::NONE
        }
        .packed(),
        Conditional::Dbnze { disp } => Fields {
            kind: Kind::Dbnze,
            size,
            disp,
            ..Fields::NONE
        }
        .packed(),
        Conditional::Dbnz { disp } => Fields {
            kind: Kind::Dbnz,
            size,
            disp,
            ..Fields::NONE
        }
        .packed(),
        Conditional::Bcwz { disp } => Fields {
            kind: Kind::Bcwz,
            size,
            disp,
            ..Fields::NONE
        }
        .packed(),
    }
}

fn moving(i: Move, size: u16) -> Reading
    ensures { Packs (Moves i) size result.bits }
{
    match i {
        Move::Transfers(group) => transfer(group, size),
        Move::Stacks(group) => stack(group, size),
        Move::Branches(group) => branch(group, size),
        Move::Tests(group) => conditional(group, size),
    }
}

// Those with memory take the general path.
fn product(op: u8, word: bool, by: Place, size: u16) -> Reading
    ensures { Packs (Multiplies (product_at (op % 8) word by)) size result.bits }
{
    match by {
        Place::Register(rm) => Fields {
            kind: Kind::MultiplyReg,
            size,
            rm,
            op,
            word,
            ..Fields::NONE
        }
        .packed(),
        Place::Memory(_) => Reading::NONE,
    }
}

fn multiply(i: Multiply, size: u16) -> Reading
    ensures { Packs (Multiplies i) size result.bits }
{
    match i {
        Multiply::Mulu { word, by } => product(0, word, by, size),
        Multiply::Mul { word, by } => product(1, word, by, size),
        Multiply::Divu { word, by } => product(2, word, by, size),
        Multiply::Div { word, by } => product(3, word, by, size),
        _ => Reading::NONE,
    }
}

// Repeated by F3; otherwise they take the general path.
fn stream(op: u8, word: bool, seg: u8, repeat: Repeat, size: u16) -> Reading
    ensures { Packs (Blocks (stream_at (op % 8)) word seg repeat) size result.bits }
{
    match repeat {
        Repeat::WhileZ => Fields {
            kind: Kind::Stream,
            size,
            op,
            seg,
            word,
            ..Fields::NONE
        }
        .packed(),
        _ => Reading::NONE,
    }
}

fn portless(op: u8, word: bool, seg: u8, repeat: Repeat, size: u16) -> Reading
    ensures { Packs (Blocks (primitive_at (op % 8)) word seg repeat) size result.bits }
{
    Fields {
        kind: Kind::Block,
        size,
        reg: repeat.number(),
        op,
        seg,
        word,
        ..Fields::NONE
    }
    .packed()
}

fn block(primitive: Primitive, word: bool, seg: u8, repeat: Repeat, size: u16) -> Reading
    ensures { Packs (Blocks primitive word seg repeat) size result.bits }
{
    match primitive {
        Primitive::Movbk => portless(0, word, seg, repeat, size),
        Primitive::Cmpbk => portless(1, word, seg, repeat, size),
        Primitive::Cmpm => portless(2, word, seg, repeat, size),
        Primitive::Ldm => portless(3, word, seg, repeat, size),
        Primitive::Stm => portless(4, word, seg, repeat, size),
        Primitive::Inm => stream(0, word, seg, repeat, size),
        Primitive::Outm => stream(1, word, seg, repeat, size),
    }
}

// A port's number stands where an address has its offset.
#[tactic(auto, unfolding(crate::specs::Readings::port_at))]
fn port_fields(port: Port) -> (u8, u16)
    ensures { port ≡ port_at result.0 result.1 }
{
    match port {
        Port::InDw => (0, 0),
        Port::Numbered(n) => (NO_FORM, u16::from(n)),
    }
}

fn at_a_port(i: Io, size: u16) -> Reading
    ensures { Packs (Ports i) size result.bits }
{
    match i {
        Io::In { word, port } => {
            let (rm, disp) = port_fields(port);
            Fields {
                kind: Kind::In,
                size,
                rm,
                word,
                disp,
                ..Fields::NONE
            }
            .packed()
        }
        Io::Out { word, port } => {
            let (rm, disp) = port_fields(port);
            Fields {
                kind: Kind::Out,
                size,
                rm,
                word,
                disp,
                ..Fields::NONE
            }
            .packed()
        }
    }
}

pub fn pack(i: Instr, size: u16) -> Reading
    ensures { Packs i size result.bits }
{
    match i {
        Instr::Computes(group) => compute(group, size),
        Instr::Moves(group) => moving(group, size),
        Instr::Multiplies(group) => multiply(group, size),
        Instr::Blocks {
            primitive,
            word,
            seg,
            repeat,
        } => block(primitive, word, seg, repeat, size),
        Instr::Ports(group) => at_a_port(group, size),
        _ => Reading::NONE,
    }
}

// Whether a reading is at a port.
pub fn at_port(r: Reading) -> bool
    ensures { result ≡ at_port r.bits }
{
    match r.kind() {
        Kind::In | Kind::Out | Kind::Stream => true,
        _ => false,
    }
}
