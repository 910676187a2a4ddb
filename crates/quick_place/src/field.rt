// What a field of a reading stands for, by its number.
ghost use Rattle.std.specs.Prelude.{ℕ, ◌≡◌, ◌<◌};
ghost use Rattle.sheet.specs.FirstByte.{operation_at};
ghost use Rattle.quick_place.specs.Packed.{unary_at, shift_at, convert_at, repeat_at};

use sheet::{Convert, Operation, Repeat, Shift, Unary};

// Each number of a value is taken back to it.
pub trait Field: Copy {
    ghost at: { ℕ → Self };

    fn at_number(n: u8) -> Self
        ensures { result ≡ at n };

    fn number(self) -> u8
        ensures named { self ≡ at result }
        ensures small { result < 8 };
}

#[tactic(auto, unfolding(sheet::specs::FirstByte::operation_at))]
impl Field for Operation {
    ghost at = { operation_at };

    fn at_number(n: u8) -> Operation {
        match n {
            1 => Operation::Or,
            2 => Operation::Addc,
            3 => Operation::Subc,
            4 => Operation::And,
            5 => Operation::Sub,
            6 => Operation::Xor,
            7 => Operation::Cmp,
            _ => Operation::Add,
        }
    }

    fn number(self) -> u8 {
        self as u8
    }
}

#[tactic(auto, unfolding(crate::specs::Packed::unary_at))]
impl Field for Unary {
    ghost at = { unary_at };

    fn at_number(n: u8) -> Unary {
        match n {
            1 => Unary::Dec,
            2 => Unary::Not,
            3 => Unary::Neg,
            _ => Unary::Inc,
        }
    }

    fn number(self) -> u8 {
        self as u8
    }
}

#[tactic(auto, unfolding(crate::specs::Packed::shift_at))]
impl Field for Shift {
    ghost at = { shift_at };

    fn at_number(n: u8) -> Shift {
        match n {
            1 => Shift::Ror,
            2 => Shift::Rolc,
            3 => Shift::Rorc,
            4 => Shift::Shl,
            5 => Shift::Shr,
            6 => Shift::Shra,
            _ => Shift::Rol,
        }
    }

    fn number(self) -> u8 {
        self as u8
    }
}

#[tactic(auto, unfolding(crate::specs::Packed::convert_at))]
impl Field for Convert {
    ghost at = { convert_at };

    fn at_number(n: u8) -> Convert {
        match n {
            1 => Convert::Adj4a,
            2 => Convert::Adjbs,
            3 => Convert::Adj4s,
            4 => Convert::Cvtbd,
            5 => Convert::Cvtdb,
            6 => Convert::Cvtbw,
            7 => Convert::Cvtwl,
            _ => Convert::Adjba,
        }
    }

    fn number(self) -> u8 {
        self as u8
    }
}

#[tactic(auto, unfolding(crate::specs::Packed::repeat_at))]
impl Field for Repeat {
    ghost at = { repeat_at };

    fn at_number(n: u8) -> Repeat {
        match n {
            1 => Repeat::WhileZ,
            2 => Repeat::WhileNotZ,
            3 => Repeat::WhileCy,
            4 => Repeat::WhileNotCy,
            _ => Repeat::Once,
        }
    }

    fn number(self) -> u8 {
        self as u8
    }
}
