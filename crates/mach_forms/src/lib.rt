// The eight address forms as a table: base register, index register, default segment.
#![tactic(auto)]

ghost use Rattle.std.specs.Prelude.{◌≡◌};
ghost use Rattle.sheet.specs.Operand.{form_at};

use sheet::Form;

const BW: u8 = 3;

const BP: u8 = 5;

const IX: u8 = 6;

const IY: u8 = 7;

const SS: u8 = 2;

const DS0: u8 = 3;

const FORMS: [Form; 8] = [
    Form {
        base: BW,
        index: Some(IX),
        seg: DS0,
    },
    Form {
        base: BW,
        index: Some(IY),
        seg: DS0,
    },
    Form {
        base: BP,
        index: Some(IX),
        seg: SS,
    },
    Form {
        base: BP,
        index: Some(IY),
        seg: SS,
    },
    Form {
        base: IX,
        index: None,
        seg: DS0,
    },
    Form {
        base: IY,
        index: None,
        seg: DS0,
    },
    Form {
        base: BP,
        index: None,
        seg: SS,
    },
    Form {
        base: BW,
        index: None,
        seg: DS0,
    },
];

// The form that a mem field names.
pub fn form_at(n: u8) -> Form
    ensures { result ≡ form_at n }
{
    let i = (n % 8) as usize;
    FORMS[i]
}
