// The groups of the 8080 mode's instructions.
ghost use Rattle.sheet.specs.declared.cards.Card.TheVariants.{Transfers, Ports, Controls, Points, Calculates, Branches, Stacks, Modes};

use crate::Group;
use sheet::cards::{Card, CardArithmetic, CardBranch, CardMode, CardPoint, CardStack};
use sheet::{Control, Io, Transfer};

impl Group<Card> for Transfer {
    ghost instr = { Transfers };

    fn instr(self) -> Card {
        Card::Transfers(self)
    }
}

impl Group<Card> for Io {
    ghost instr = { Ports };

    fn instr(self) -> Card {
        Card::Ports(self)
    }
}

impl Group<Card> for Control {
    ghost instr = { Controls };

    fn instr(self) -> Card {
        Card::Controls(self)
    }
}

impl Group<Card> for CardPoint {
    ghost instr = { Points };

    fn instr(self) -> Card {
        Card::Points(self)
    }
}

impl Group<Card> for CardArithmetic {
    ghost instr = { Calculates };

    fn instr(self) -> Card {
        Card::Calculates(self)
    }
}

impl Group<Card> for CardBranch {
    ghost instr = { Branches };

    fn instr(self) -> Card {
        Card::Branches(self)
    }
}

impl Group<Card> for CardStack {
    ghost instr = { Stacks };

    fn instr(self) -> Card {
        Card::Stacks(self)
    }
}

impl Group<Card> for CardMode {
    ghost instr = { Modes };

    fn instr(self) -> Card {
        Card::Modes(self)
    }
}
