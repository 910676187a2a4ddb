// PSW after an instruction: a column applied, one flag set, a trap entered, stored flags taken back, the mode changed. No preconditions.
#![tactic(auto, unfolding(sheet::specs::Psw::settled, sheet::specs::Psw::in_mode, sheet::specs::Arithmetic::resulting, sheet::specs::Contract::flagged))]

ghost use Rattle.std.specs.Prelude.{true, ◌≡◌};
ghost use Rattle.sheet.specs.Psw as sheet;
ghost use Rattle.sheet.specs.Psw.{flag_of, native_of, pack, becomes, columns, column, only, entering, keeps, settled, in_mode};
ghost use Rattle.sheet.specs.Arithmetic.{resulting};
ghost use Rattle.sheet.specs.Contract.{flagged};
ghost use Rattle.sheet.specs.Transfer.{flags_of_byte};

use calc_flags::{BRK, DIR, Flags, IE, MD, V, flag};
use calc_word::{even, sign};
use sheet::Flagged;

// The six flags of the sheet's columns as given. BRK, IE, DIR and MD stay.
pub fn affect(f: Flags, psw: u16) -> u16
    ensures { result ≡ settled keeps (column (columns (becomes f.ac) (becomes f.cy) (becomes f.v) (becomes f.p) (becomes f.s) (becomes f.z))) psw }
{
    let all = Flags {
        brk: flag::<BRK>(psw),
        ie: flag::<IE>(psw),
        dir: flag::<DIR>(psw),
        ..f
    };
    all.pack(flag::<MD>(psw))
}

// A value with the flags that do not follow from it.
#[derive(Clone, Copy)]
pub struct Outcome {
    pub value: u16,
    pub ac: bool,
    pub cy: bool,
    pub v: bool,
}

// P, S and Z are by the value.
pub fn result(word: bool, t: Outcome, psw: u16) -> Flagged
    ensures { result ≡ flagged (resulting word t.value (becomes t.ac) (becomes t.cy) (becomes t.v)) psw }
{
    let x = t.value;
    let f = Flags {
        ac: t.ac,
        cy: t.cy,
        v: t.v,
        p: even(x),
        s: sign(word, x),
        z: x == 0,
        ..Flags::from(psw)
    };
    Flagged {
        value: x,
        psw: affect(f, psw),
    }
}

// The flag is a field here and in the next two, and no field is a parameter.
pub fn with_cy(b: bool, psw: u16) -> u16
    ensures { result ≡ settled keeps (only sheet.CY b) psw }
{
    let f = Flags {
        cy: b,
        ..Flags::from(psw)
    };
    f.pack(flag::<MD>(psw))
}

pub fn with_ie(b: bool, psw: u16) -> u16
    ensures { result ≡ settled keeps (only sheet.IE b) psw }
{
    let f = Flags {
        ie: b,
        ..Flags::from(psw)
    };
    f.pack(flag::<MD>(psw))
}

pub fn with_dir(b: bool, psw: u16) -> u16
    ensures { result ≡ settled keeps (only sheet.DIR b) psw }
{
    let f = Flags {
        dir: b,
        ..Flags::from(psw)
    };
    f.pack(flag::<MD>(psw))
}

// MD as given, the flags stay.
pub fn in_mode(md: bool, psw: u16) -> u16
    ensures { result ≡ in_mode md psw }
{
    Flags::from(psw).pack(md)
}

// On entering a trap IE and BRK become 0, MD 1.
pub fn enter(psw: u16) -> u16
    ensures { result ≡ in_mode true (settled keeps entering psw) }
{
    let f = Flags {
        brk: false,
        ie: false,
        ..Flags::from(psw)
    };
    f.pack(true)
}

// The flags of a stored PSW with the fixed bits as they must be, whatever was stored. MD stays.
pub fn restore(x: u16, psw: u16) -> u16
    ensures { result ≡ pack (native_of psw) (flag_of x) }
{
    Flags::from(x).pack(flag::<MD>(psw))
}

// MOV PSW,AH.
pub fn from_ah(ah: u16, psw: u16) -> u16
    ensures { result ≡ settled keeps (column (flags_of_byte ah)) psw }
{
    let f = Flags {
        v: flag::<V>(psw),
        ..Flags::from(ah)
    };
    affect(f, psw)
}
