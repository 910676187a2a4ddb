// The mod-reg-mem byte: the register or the address that it names, with the bytes that follow it.
#![tactic(auto)]

ghost use Rattle.std.specs.Prelude.{◌≡◌, ℕ, ◌+◌, ◌<◌};
ghost use Rattle.sheet.specs.declared.Instr.TheVariants.{Blocks};
ghost use Rattle.sheet.specs.Registers.{in_ds0};
ghost use Rattle.sheet.specs.FirstByte.{operation_at};
ghost use Rattle.sheet.specs.Encoding.{W, seg_or, mod_field, mem_field};
ghost use Rattle.sheet.specs.Encoding.{formed as formed_of, direct as direct_of, displacement as displacement_read, address as address_read};
ghost use Rattle.code_answer.specs.Answer.{known_as, Takes};
ghost use Rattle.code_bytes.specs.Lent.{lent_code};
ghost use Rattle.code_operand.specs.Operands.{Operands, memory_of, plain_of, shift_of};

use code_answer::{DS0, Decoded};
use code_bytes::{NumberRead, Reader};
use sheet::{Address, Operation, Place, Prefixes, Primitive, Refusal, Shift};

#[derive(Clone, Copy)]
struct AddressRead {
    pub address: Address,
    pub next: u16,
}

// What a mod-reg-mem byte names: its reg field, and the operand of its other fields.
#[derive(Clone, Copy)]
pub struct OperandsRead {
    pub reg: u8,
    pub place: Place,
    pub next: u16,
    pub ghost field: { reg < 8 },
}

// The operations and the shifts, as a reg field names them; no shift has the number 6.
const OPERATIONS: [Operation; 8] = [
    Operation::Add,
    Operation::Or,
    Operation::Addc,
    Operation::Subc,
    Operation::And,
    Operation::Sub,
    Operation::Xor,
    Operation::Cmp,
];

const SHIFTS: [Option<Shift>; 8] = [
    Some(Shift::Rol),
    Some(Shift::Ror),
    Some(Shift::Rolc),
    Some(Shift::Rorc),
    Some(Shift::Shl),
    Some(Shift::Shr),
    None,
    Some(Shift::Shra),
];

impl OperandsRead {
    // The operand where it has to stand in memory.
    pub fn memory(self) -> Result<Address, Refusal>
        ensures { result ≡ memory_of self.place }
    {
        match self.place {
            Place::Memory(address) => Ok(address),
            Place::Register(_) => Err(Refusal::UnknownInstruction),
        }
    }

    // The operand where the reg field has to be 0.
    pub fn plain(self) -> Result<Place, Refusal>
        ensures { result ≡ plain_of self.reg self.place }
    {
        if self.reg == 0 {
            Ok(self.place)
        } else {
            Err(Refusal::UnknownInstruction)
        }
    }

    // The shift that the reg field names.
    pub fn shift(self) -> Result<Shift, Refusal>
        ensures { result ≡ shift_of self.reg }
    {
        SHIFTS[self.reg as usize].ok_or(Refusal::UnknownInstruction)
    }

    // The operation that it names.
    pub fn operation(self) -> Operation
        ensures { result ≡ operation_at self.reg }
    {
        operation_at(self.reg)
    }
}

pub fn operation_at(n: u8) -> Operation
    requires { n < 8 }
    ensures { result ≡ operation_at n }
{
    OPERATIONS[n as usize]
}

// An address form with its displacement.
fn formed(p: Prefixes, n: u8, disp: u16) -> Address
    ensures { result ≡ formed_of p n disp }
{
    Address::Formed {
        seg: p.seg.unwrap_or(mach_forms::form_at(n).seg),
        form: n,
        disp,
    }
}

// An address by itself.
pub fn direct(p: Prefixes, offset: u16) -> Address
    ensures { result ≡ direct_of p offset }
{
    Address::Direct {
        seg: p.seg.unwrap_or(DS0),
        offset,
    }
}

// A block instruction, whose source obeys the prefixes.
pub fn block(r: Reader, primitive: Primitive, b: u8) -> Result<Decoded, Refusal>
    ensures { result ≡ known_as (Blocks primitive (W b) (seg_or r.entry.prefixes.seg in_ds0) r.entry.prefixes.repeat) r.entry.read }
{
    let p = r.prefixes;
    code_answer::blocks(
        primitive,
        b % 2 == 1,
        p.seg.unwrap_or(DS0),
        p.repeat,
        r.read,
    )
}

// The displacement after a mod-reg-mem byte: none, a byte with its sign, a word.
fn displacement(r: Reader, mode: u8) -> NumberRead
    ensures { Takes ℕ (displacement_read mode) (lent_code r.entry.code) (r.entry.read + 1) result.value result.next 2 }
{
    let next = r.read + 1;
    match mode {
        0 => NumberRead { value: 0, next },
        1 => NumberRead {
            value: r.code.short(next),
            next: next + 1,
        },
        _ => NumberRead {
            value: r.code.word(next),
            next: next + 2,
        },
    }
}

// Form 6 without displacement is a 16-bit address instead.
fn address(r: Reader, m: u8) -> AddressRead
    ensures { Takes Address (address_read r.entry.prefixes (mod_field m) (mem_field m)) (lent_code r.entry.code) (r.entry.read + 1) result.address result.next 2 }
{
    if m / 64 == 0 && m % 8 == 6 {
        let next = r.read + 1;
        return AddressRead {
            address: direct(r.prefixes, r.code.word(next)),
            next: next + 2,
        };
    }
    let d = displacement(r, m / 64);
    AddressRead {
        address: formed(r.prefixes, m % 8, d.value),
        next: d.next,
    }
}

// The mod-reg-mem byte and what it names: mod 11 is a register.
pub fn operands(r: Reader) -> OperandsRead
    ensures { Operands r.entry.prefixes (lent_code r.entry.code) r.entry.read result.reg result.place result.next }
{
    let m = r.byte();
    let reg = m / 8 % 8;
    if m / 64 == 3 {
        return OperandsRead {
            reg,
            place: Place::Register(m % 8),
            next: r.read + 1,
        };
    }
    let a = address(r, m);
    OperandsRead {
        reg,
        place: Place::Memory(a.address),
        next: a.next,
    }
}
