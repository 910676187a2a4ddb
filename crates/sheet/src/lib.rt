// The types that the definitions of specs/ and the code share.
#![tactic(auto)]

pub mod cards;

ghost use Rattle.std.specs.Prelude.{◌≡◌};
ghost use Rattle.sheet.specs.Refusals.{refusal_number};

use cards::Card;

// ---- the machine

#[derive(Clone, Copy)]
pub struct State {
    // AW CW DW BW SP BP IX IY DS1 PS SS DS0 PC PSW
    pub file: [u16; 14],
    pub marks: Marks,
    pub progress: Progress,
}

#[derive(Clone, Copy)]
pub struct Marks {
    pub halted: bool,
    // the last finished step loaded a segment register
    pub loaded: bool,
    // POP PSW and RETI may write MD: between a BRKEM and the RETEM that closes it (02 m)
    pub writable: bool,
}

// What of a state the ports move.
#[derive(Clone, Copy)]
pub struct Progress {
    // the places in the port tape and in the log
    pub tape: usize,
    pub log: usize,
    // steps since the last record
    pub count: u32,
}

// What data accesses come to.
#[derive(Clone, Copy)]
pub struct Bus {
    pub cycles: u32,
    // bytes that were written outside RAM
    pub dropped: u32,
}

// ---- operands

// One of the eight address forms: base register, index register where it has one, default segment.
#[derive(Clone, Copy)]
pub struct Form {
    pub base: u8,
    pub index: Option<u8>,
    pub seg: u8,
}

// A memory operand. Segments are numbered as in Table 8-7: 0 DS1, 1 PS, 2 SS, 3 DS0.
#[derive(Clone, Copy)]
pub enum Address {
    Formed { seg: u8, form: u8, disp: u16 },
    Direct { seg: u8, offset: u16 },
}

// What mod and mem name: a register of the operand's width, or memory.
#[derive(Clone, Copy)]
pub enum Place {
    Register(u8),
    Memory(Address),
}

#[derive(Clone, Copy)]
pub enum Source {
    Held(Place),
    Immediate(u16),
}

// A place whose address has been computed.
#[derive(Clone, Copy)]
pub enum Spot {
    InRegister(u8),
    InMemory { base: u16, offset: u16 },
}

// A number that stands in CL or follows in the instruction.
#[derive(Clone, Copy)]
pub enum Amount {
    InCl,
    Given(u8),
}

// ---- instructions, in groups after those of section 8

#[derive(Clone, Copy)]
pub enum Transfer {
    Mov { word: bool, to: Place, from: Source },
    LoadAcc { word: bool, from: Address },
    StoreAcc { word: bool, to: Address },
    ToSegment { seg: u8, from: Place },
    FromSegment { to: Place, seg: u8 },
    LoadPointer { seg: u8, reg: u8, from: Address },
    AhFromPsw,
    PswFromAh,
    Ldea { reg: u8, from: Address },
    Trans { seg: u8 },
    Xch { word: bool, reg: u8, with: Place },
}

// In the order of the reg field of 80 to 83.
#[derive(Clone, Copy)]
pub enum Operation {
    Add,
    Or,
    Addc,
    Subc,
    And,
    Sub,
    Xor,
    Cmp,
}

#[derive(Clone, Copy)]
pub enum Unary {
    Inc,
    Dec,
    Not,
    Neg,
}

#[derive(Clone, Copy)]
pub enum Arithmetic {
    Two {
        op: Operation,
        word: bool,
        to: Place,
        from: Source,
    },
    One {
        op: Unary,
        word: bool,
        to: Place,
    },
    Test {
        word: bool,
        left: Place,
        right: Source,
    },
}

#[derive(Clone, Copy)]
pub enum Multiply {
    Mulu { word: bool, by: Place },
    Mul { word: bool, by: Place },
    MulByte { reg: u8, from: Place, by: u16 },
    MulWord { reg: u8, from: Place, by: u16 },
    Divu { word: bool, by: Place },
    Div { word: bool, by: Place },
}

#[derive(Clone, Copy)]
pub enum Convert {
    Adjba,
    Adj4a,
    Adjbs,
    Adj4s,
    Cvtbd,
    Cvtdb,
    Cvtbw,
    Cvtwl,
}

// In the order of the reg field of C0, C1, D0 to D3, of which 6 is unused.
#[derive(Clone, Copy)]
pub enum Shift {
    Rol,
    Ror,
    Rolc,
    Rorc,
    Shl,
    Shr,
    Shra,
}

// How many places: the fixed 1, or an amount.
#[derive(Clone, Copy)]
pub enum Places {
    One,
    Counted(Amount),
}

#[derive(Clone, Copy)]
pub enum Bit {
    Test1,
    Clr1,
    Set1,
    Not1,
}

#[derive(Clone, Copy)]
pub enum Decimal {
    Add4s { seg: u8 },
    Sub4s { seg: u8 },
    Cmp4s { seg: u8 },
    Rol4 { to: Place },
    Ror4 { to: Place },
}

// The length of a bit field: in a byte register, or given.
#[derive(Clone, Copy)]
pub enum Length {
    InRegister(u8),
    Given(u8),
}

#[derive(Clone, Copy)]
pub enum Field {
    Ins { offset: u8, length: Length },
    Ext { seg: u8, offset: u8, length: Length },
}

#[derive(Clone, Copy)]
pub enum Stack {
    Push { from: Place },
    PushByte { value: u16 },
    PushWord { value: u16 },
    PushSegment { seg: u8 },
    PushPsw,
    PushR,
    Pop { to: Place },
    PopSegment { seg: u8 },
    PopR,
    Prepare { size: u16, level: u8 },
    Dispose,
}

#[derive(Clone, Copy)]
pub enum Branch {
    CallNear { disp: u16 },
    CallTo { to: Place },
    CallFar { ps: u16, pc: u16 },
    CallFarAt { at: Address },
    Ret,
    RetPop { size: u16 },
    RetFar,
    RetFarPop { size: u16 },
    BrNear { disp: u16 },
    BrShort { disp: u16 },
    BrTo { to: Place },
    BrFar { ps: u16, pc: u16 },
    BrFarAt { at: Address },
}

#[derive(Clone, Copy)]
pub enum Conditional {
    // by the low four bits of 70 to 7F
    If { condition: u8, disp: u16 },
    Dbnzne { disp: u16 },
    Dbnze { disp: u16 },
    Dbnz { disp: u16 },
    Bcwz { disp: u16 },
}

#[derive(Clone, Copy)]
pub enum Interrupt {
    Brk3,
    Brk { vector: u8 },
    Brkv,
    Chkind { reg: u8, from: Address },
}

// What may write MD, the mode's bit of PSW.
#[derive(Clone, Copy)]
pub enum Mode {
    PopPsw,
    Reti,
    Brkem { vector: u8 },
}

#[derive(Clone, Copy)]
pub enum Primitive {
    Movbk,
    Cmpbk,
    Cmpm,
    Ldm,
    Stm,
    Inm,
    Outm,
}

// The repeat prefix that counts, by what a comparison must leave to go on.
#[derive(Clone, Copy)]
pub enum Repeat {
    Once,
    WhileZ,
    WhileNotZ,
    WhileCy,
    WhileNotCy,
}

// What the prefixes of an instruction say: the segment that one puts in place of the usual, and the repeat.
#[derive(Clone, Copy)]
pub struct Prefixes {
    pub seg: Option<u8>,
    pub repeat: Repeat,
}

#[derive(Clone, Copy)]
pub enum Port {
    InDw,
    Numbered(u8),
}

#[derive(Clone, Copy)]
pub enum Io {
    In { word: bool, port: Port },
    Out { word: bool, port: Port },
}

#[derive(Clone, Copy)]
pub enum Control {
    Nop,
    Halt,
    Di,
    Ei,
    ClrCy,
    SetCy,
    NotCy,
    ClrDir,
    SetDir,
}

// What computes a result and takes no trap.
#[derive(Clone, Copy)]
pub enum Compute {
    Calculates(Arithmetic),
    Converts(Convert),
    Shifts {
        kind: Shift,
        word: bool,
        to: Place,
        places: Places,
    },
    Bits {
        op: Bit,
        word: bool,
        to: Place,
        number: Amount,
    },
    Decimals(Decimal),
    Fields(Field),
}

// What moves data or PC and takes no trap.
#[derive(Clone, Copy)]
pub enum Move {
    Transfers(Transfer),
    Stacks(Stack),
    Branches(Branch),
    Tests(Conditional),
}

#[derive(Clone, Copy)]
pub enum Instr {
    Computes(Compute),
    Moves(Move),
    Multiplies(Multiply),
    Interrupts(Interrupt),
    Blocks {
        primitive: Primitive,
        word: bool,
        seg: u8,
        repeat: Repeat,
    },
    Ports(Io),
    Controls(Control),
    Modes(Mode),
    // the 8080 mode's
    Cards(Card),
}

// ---- the port log

// The rule that gaps were written under: document 01's, or that of document 02 c.
#[derive(Clone, Copy)]
pub enum GapRule {
    Old,
    New,
}

// A number at the start of a part of the log, and how many bytes it has.
#[derive(Clone, Copy)]
pub struct Number {
    pub value: u64,
    pub len: usize,
}

// What stands at the start of a part of the log: three outcomes that one match names; a Result of an Option would nest two.
#[derive(Clone, Copy)]
pub enum Found {
    Record {
        gap: u64,
        key: u64,
        value: u64,
        len: usize,
    },
    End,
    Faulty,
}

// What the log reader answers at a place, for the same reason.
#[derive(Clone, Copy)]
pub enum Entry {
    Record {
        gap: u64,
        key: u64,
        value: u64,
        next: usize,
    },
    End,
    Malformed {
        at: usize,
    },
    Beyond,
}

// ---- refusals

// Why a call was refused, in the order of the numbers that callers know.
#[derive(Clone, Copy, PartialEq, Eq)]
pub enum Refusal {
    TooMuchMemory,
    BadState,
    UnknownInstruction,
    FourthPrefix,
    TapeTooShort,
    NoRoom,
    Masked,
    Halted,
    MalformedRecord,
    MalformedLine,
    WrongChecksum,
    OutsideImage,
    AfterSegmentLoad,
    NotAListing,
    ImageTooLong,
}

impl Refusal {
    pub fn number(self) -> u8
        ensures { result ≡ refusal_number self }
    {
        match self {
            Refusal::TooMuchMemory => 1,
            Refusal::BadState => 2,
            Refusal::UnknownInstruction => 3,
            Refusal::FourthPrefix => 4,
            Refusal::TapeTooShort => 5,
            Refusal::NoRoom => 6,
            Refusal::Masked => 7,
            Refusal::Halted => 8,
            Refusal::MalformedRecord => 9,
            Refusal::MalformedLine => 10,
            Refusal::WrongChecksum => 11,
            Refusal::OutsideImage => 12,
            Refusal::AfterSegmentLoad => 13,
            Refusal::NotAListing => 16,
            Refusal::ImageTooLong => 17,
        }
    }
}

// ---- what calculations come to

// A product of 32 bits, of which byte operands use 16, and whether it exceeds its lower half.
#[derive(Clone, Copy)]
pub struct Product {
    pub bits: u32,
    pub exceeds: bool,
}

// What a division gives where it does not trap.
#[derive(Clone, Copy)]
pub struct Quotient {
    pub quotient: u16,
    pub remainder: u16,
}

// An operand that is shifted, with CY beside it.
#[derive(Clone, Copy)]
pub struct Turn {
    pub value: u16,
    pub cy: bool,
}

// Which way decimal digits are calculated: ADD4S, ADJ4A and ADJBA add, SUB4S, CMP4S, ADJ4S and ADJBS subtract.
#[derive(Clone, Copy)]
pub enum Way {
    Addition,
    Subtraction,
}

// What becomes of the result of a decimal string: CMP4S stores nothing.
#[derive(Clone, Copy)]
pub enum Storing {
    Stored,
    NotStored,
}

// A byte with AC and CY.
#[derive(Clone, Copy)]
pub struct Digits {
    pub value: u16,
    pub ac: bool,
    pub cy: bool,
}

// What goes from byte to byte of a decimal string: the carry, and whether all results so far are zero.
#[derive(Clone, Copy)]
pub struct Chain {
    pub cy: bool,
    pub zero: bool,
}

// A result, and the PSW that it leaves.
#[derive(Clone, Copy)]
pub struct Flagged {
    pub value: u16,
    pub psw: u16,
}
