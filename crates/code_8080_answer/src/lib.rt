// What the fields of the 8080 mode's codes name.
// No function here has a precondition.
#![tactic(auto)]

ghost use Rattle.std.specs.Prelude.{◌≡◌};
ghost use Rattle.sheet.specs.CardPlaces.{operand_at, card_pair_at, condition_at};
ghost use Rattle.sheet.specs.CardCodes.{card_operation_at};

use code_answer::DS0;
use sheet::{Address, Operation, Place};

// B C D E H L M A, for the eight values of a field.
pub fn operand_at(n: u8) -> Place
    ensures { result ≡ operand_at n }
{
    match n {
        0 => Place::Register(5),
        1 => Place::Register(1),
        2 => Place::Register(6),
        3 => Place::Register(2),
        4 => Place::Register(7),
        5 => Place::Register(3),
        6 => Place::Memory(Address::Formed {
            seg: DS0,
            form: 7,
            disp: 0,
        }),
        _ => Place::Register(0),
    }
}

// BC DE HL SP, as CW DW BW BP.
pub fn pair_at(n: u8) -> u8
    ensures { result ≡ card_pair_at n }
{
    match n {
        0 => 1,
        1 => 2,
        2 => 3,
        _ => 5,
    }
}

// NZ Z NC C PO PE P M, as BNE BE BNC BC BPO BPE BP BN.
pub fn condition_at(n: u8) -> u8
    ensures { result ≡ condition_at n }
{
    match n {
        0 => 5,
        1 => 4,
        2 => 3,
        3 => 2,
        4 => 11,
        5 => 10,
        6 => 9,
        _ => 8,
    }
}

// ADD ADC SUB SBB ANA XRA ORA CMP.
pub fn operation_at(n: u8) -> Operation
    ensures { result ≡ card_operation_at n }
{
    match n {
        0 => Operation::Add,
        1 => Operation::Addc,
        2 => Operation::Sub,
        3 => Operation::Subc,
        4 => Operation::And,
        5 => Operation::Xor,
        6 => Operation::Or,
        _ => Operation::Cmp,
    }
}
