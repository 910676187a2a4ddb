// Where an instruction writes in memory: to its operand, to DS1:IY, or else on the stack of its mode.
use mach_registers::{DS1, IY};
use sheet::cards::{Card, CardArithmetic, CardPoint};
use sheet::{
    Address, Arithmetic, Compute, Decimal, Field, Instr, Move, Place, Primitive, Stack, Transfer,
};

pub const DS0: usize = 11;

// An address, or the stack of a mode, whose place is known when the step is done.
#[derive(Clone, Copy)]
pub enum Target {
    At(usize),
    Stack,
    CardStack,
}

fn of_address(file: &[u16; 14], a: Address) -> Target {
    Target::At(mach_memory::address(mach_operand::base(file, a), mach_operand::offset(file, a)))
}

fn of_place(file: &[u16; 14], place: Place) -> Target {
    match place {
        Place::Register(_) => Target::Stack,
        Place::Memory(a) => of_address(file, a),
    }
}

// The block that DS1:IY points to.
fn of_block(file: &[u16; 14]) -> Target {
    Target::At(mach_memory::address(file[DS1], file[IY]))
}

fn of_arithmetic(file: &[u16; 14], a: Arithmetic) -> Target {
    match a {
        Arithmetic::Two { to, .. } => of_place(file, to),
        Arithmetic::One { to, .. } => of_place(file, to),
        Arithmetic::Test { .. } => Target::Stack,
    }
}

fn of_decimal(file: &[u16; 14], d: Decimal) -> Target {
    match d {
        Decimal::Rol4 { to } => of_place(file, to),
        Decimal::Ror4 { to } => of_place(file, to),
        _ => of_block(file),
    }
}

fn of_field(file: &[u16; 14], f: Field) -> Target {
    match f {
        Field::Ins { .. } => of_block(file),
        Field::Ext { .. } => Target::Stack,
    }
}

fn of_compute(file: &[u16; 14], c: Compute) -> Target {
    match c {
        Compute::Calculates(a) => of_arithmetic(file, a),
        Compute::Converts(_) => Target::Stack,
        Compute::Shifts { to, .. } => of_place(file, to),
        Compute::Bits { to, .. } => of_place(file, to),
        Compute::Decimals(d) => of_decimal(file, d),
        Compute::Fields(f) => of_field(file, f),
    }
}

fn of_transfer(file: &[u16; 14], t: Transfer) -> Target {
    match t {
        Transfer::Mov { to, .. } => of_place(file, to),
        Transfer::StoreAcc { to, .. } => of_address(file, to),
        Transfer::FromSegment { to, .. } => of_place(file, to),
        Transfer::Xch { with, .. } => of_place(file, with),
        _ => Target::Stack,
    }
}

fn of_stack(file: &[u16; 14], s: Stack) -> Target {
    match s {
        Stack::Pop { to } => of_place(file, to),
        _ => Target::Stack,
    }
}

fn of_move(file: &[u16; 14], m: Move) -> Target {
    match m {
        Move::Transfers(t) => of_transfer(file, t),
        Move::Stacks(s) => of_stack(file, s),
        _ => Target::Stack,
    }
}

fn of_primitive(file: &[u16; 14], p: Primitive) -> Target {
    match p {
        Primitive::Movbk => of_block(file),
        Primitive::Stm => of_block(file),
        Primitive::Inm => of_block(file),
        _ => Target::Stack,
    }
}

fn of_point(file: &[u16; 14], p: CardPoint) -> Target {
    match p {
        CardPoint::Ldax { .. } => Target::Stack,
        CardPoint::Stax { pair } => {
            Target::At(mach_memory::address(file[DS0], mach_registers::reg(true, file, pair)))
        }
    }
}

fn of_card_arithmetic(file: &[u16; 14], a: CardArithmetic) -> Target {
    match a {
        CardArithmetic::Inr { to } => of_place(file, to),
        CardArithmetic::Dcr { to } => of_place(file, to),
        _ => Target::Stack,
    }
}

fn of_card(file: &[u16; 14], c: Card) -> Target {
    match c {
        Card::Transfers(t) => of_transfer(file, t),
        Card::Points(p) => of_point(file, p),
        Card::Calculates(a) => of_card_arithmetic(file, a),
        Card::Branches(_) => Target::CardStack,
        Card::Stacks(_) => Target::CardStack,
        _ => Target::Stack,
    }
}

pub fn of(file: &[u16; 14], instr: Instr) -> Target {
    match instr {
        Instr::Computes(c) => of_compute(file, c),
        Instr::Moves(m) => of_move(file, m),
        Instr::Blocks { primitive, .. } => of_primitive(file, primitive),
        Instr::Cards(c) => of_card(file, c),
        _ => Target::Stack,
    }
}
