// A reading: an instruction's kind and fields, packed into one number.
#![tactic(auto)]

mod field;
mod kind;

ghost use Rattle.std.specs.Prelude.{◌≡◌, ◌≤◌};
ghost use Rattle.quick_place.specs.Packed.{rm_of, reg_of, op_of, cond_of, seg_of, word_of, disp_of, imm_of, size_of, kind_of, Joined, Located, Placed};
ghost use Rattle.quick_place.specs.Kinds.{Kinded, kind_number};

pub use field::Field;
pub use kind::Kind;
use sheet::{Address, Place};

// Where the fields begin; the kind is the lowest byte.
const SIZE: u64 = 256;

const RM: u64 = 4096;

const REG: u64 = 65536;

const OP: u64 = 1048576;

const SEG: u64 = 16777216;

const WORD: u64 = 268435456;

const DISP: u64 = 4294967296;

const IMM: u64 = 281474976710656;

// In the field of an address form: there is none, and the displacement is the offset.
pub const NO_FORM: u8 = 8;

#[derive(Clone, Copy, PartialEq, Eq)]
pub struct Reading {
    pub bits: u64,
}

impl Reading {
    // It says nothing: its instruction takes the general path.
    pub const NONE: Reading = Reading { bits: 0 };

    pub fn kind(self) -> Kind
        ensures { Kinded result (kind_of self.bits) }
    {
        Kind::from((self.bits % SIZE) as u8)
    }

    // The bytes of the instruction.
    pub fn size(self) -> u16
        ensures { result ≡ size_of self.bits }
    {
        (self.bits / SIZE % 16) as u16
    }

    // A register, or an address form.
    pub fn rm(self) -> u8
        ensures { result ≡ rm_of self.bits }
    {
        (self.bits / RM % 16) as u8
    }

    pub fn reg(self) -> u8
        ensures { result ≡ reg_of self.bits }
    {
        (self.bits / REG % 16) as u8
    }

    pub fn op_number(self) -> u8
        ensures { result ≡ op_of self.bits }
    {
        (self.bits / OP % 8) as u8
    }

    // What the field of the operation says, of whichever type the kind has there.
    pub fn op<F: Field>(self) -> F
        ensures { result ≡ F.at (op_of self.bits) }
    {
        F::at_number(self.op_number())
    }

    // The condition of a branch, in the place of the operation.
    pub fn condition(self) -> u8
        ensures { result ≡ cond_of self.bits }
    {
        (self.bits / OP % 16) as u8
    }

    pub fn segment(self) -> u8
        ensures { result ≡ seg_of self.bits }
    {
        (self.bits / SEG % 4) as u8
    }

    pub fn word(self) -> bool
        ensures { result ≡ word_of self.bits }
    {
        self.bits / WORD % 2 == 1
    }

    pub fn disp(self) -> u16
        ensures { result ≡ disp_of self.bits }
    {
        (self.bits / DISP % 65536) as u16
    }

    pub fn imm(self) -> u16
        ensures { result ≡ imm_of self.bits }
    {
        (self.bits / IMM) as u16
    }
}

// The fields of a reading that is yet to be packed.
#[derive(Clone, Copy)]
pub struct Fields {
    pub kind: Kind,
    pub size: u16,
    pub rm: u8,
    pub reg: u8,
    pub op: u8,
    pub seg: u8,
    pub word: bool,
    pub disp: u16,
    pub imm: u16,
}

impl Fields {
    // For the fields that an instruction has no use for.
    pub const NONE: Fields = Fields {
        kind: Kind::General,
        size: 0,
        rm: 0,
        reg: 0,
        op: 0,
        seg: 0,
        word: false,
        disp: 0,
        imm: 0,
    };

    // Fields that are too large give no reading, as an instruction does that is longer than a window.
    pub fn packed(self) -> Reading
        ensures { Joined (kind_number self.kind) self.size self.rm self.reg self.op self.seg self.word self.disp self.imm result.bits }
    {
        if self.size > 8 || self.rm > 15 || self.reg > 15 || self.op > 15 || self.seg > 3 {
            return Reading::NONE;
        }
        Reading {
            bits: u64::from(self.kind.number())
                + SIZE * u64::from(self.size)
                + RM * u64::from(self.rm)
                + REG * u64::from(self.reg)
                + OP * u64::from(self.op)
                + SEG * u64::from(self.seg)
                + WORD * u64::from(self.word)
                + DISP * u64::from(self.disp)
                + IMM * u64::from(self.imm),
        }
    }

    // An address gives three of the fields.
    pub fn at_address(self, a: Address) -> Reading
        ensures { Located a (kind_number self.kind) self.size self.reg self.op self.word self.imm result.bits }
    {
        match a {
            Address::Formed { seg, form, disp } => {
                if form == NO_FORM {
                    return Reading::NONE;
                }
                Fields {
                    rm: form,
                    seg,
                    disp,
                    ..self
                }
                .packed()
            }
            Address::Direct { seg, offset } => Fields {
                rm: NO_FORM,
                seg,
                disp: offset,
                ..self
            }
            .packed(),
        }
    }

    // The kind is `held` where the place is a register, `stored` where it is in memory.
    pub fn at_place(self, p: Place, held: Kind, stored: Kind) -> Reading
        ensures { Placed p (kind_number held) (kind_number stored) self.size self.reg self.op self.word self.imm result.bits }
    {
        match p {
            Place::Register(rm) => Fields {
                kind: held,
                rm,
                seg: 0,
                disp: 0,
                ..self
            }
            .packed(),
            Place::Memory(a) => Fields {
                kind: stored,
                ..self
            }
            .at_address(a),
        }
    }
}
