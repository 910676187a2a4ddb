// What a reading does.
ghost use Rattle.std.specs.Prelude.{◌≡◌, ◌≤◌};
ghost use Rattle.quick_place.specs.Kinds.{Kinded, kind_number};

#[derive(Clone, Copy, PartialEq, Eq)]
pub enum Kind {
    // what the general path does
    General = 0,
    // ADD to CMP
    AluRegReg = 1,
    AluRegMem = 2,
    AluMemReg = 3,
    MovRegReg = 4,
    MovRegMem = 5,
    MovMemReg = 6,
    MovRegImm = 7,
    PushReg = 8,
    PopReg = 9,
    BranchIf = 10,
    CallNear = 11,
    Ret = 12,
    AluRegImm = 16,
    AluMemImm = 17,
    MovMemImm = 18,
    // INC, DEC, NOT, NEG
    UnaryReg = 19,
    UnaryMem = 20,
    BrNear = 21,
    BrShort = 22,
    Dbnz = 23,
    ShiftRegOne = 24,
    ShiftMemOne = 25,
    // MOV acc,dmem and MOV dmem,acc
    LoadAcc = 26,
    StoreAcc = 27,
    TestRegReg = 28,
    TestRegImm = 29,
    // a primitive without a port, single or repeated
    Block = 32,
    // ADD4S, SUB4S, CMP4S
    DecimalString = 33,
    // ADJ4A to CVTWL
    Convert = 34,
    // MULU, MUL, DIVU, DIV
    MultiplyReg = 35,
    Bcwz = 36,
    ShiftRegCounted = 37,
    ShiftMemCounted = 38,
    Ldea = 39,
    XchRegReg = 40,
    MovRegSegment = 41,
    BrFar = 42,
    Dbnzne = 43,
    Dbnze = 44,
    In = 48,
    Out = 49,
    // INM or OUTM after the prefix F3
    Stream = 50,
}

impl Kind {
    pub fn number(self) -> u8
        ensures { (result ≡ kind_number self) × (result ≤ 50) }
    {
        self as u8
    }
}

// A number that names no kind is taken for `General`.
impl From<u8> for Kind {
    fn from(number: u8) -> Kind
        ensures { Kinded result number }
    {
        match number {
            1 => Kind::AluRegReg,
            2 => Kind::AluRegMem,
            3 => Kind::AluMemReg,
            4 => Kind::MovRegReg,
            5 => Kind::MovRegMem,
            6 => Kind::MovMemReg,
            7 => Kind::MovRegImm,
            8 => Kind::PushReg,
            9 => Kind::PopReg,
            10 => Kind::BranchIf,
            11 => Kind::CallNear,
            12 => Kind::Ret,
            16 => Kind::AluRegImm,
            17 => Kind::AluMemImm,
            18 => Kind::MovMemImm,
            19 => Kind::UnaryReg,
            20 => Kind::UnaryMem,
            21 => Kind::BrNear,
            22 => Kind::BrShort,
            23 => Kind::Dbnz,
            24 => Kind::ShiftRegOne,
            25 => Kind::ShiftMemOne,
            26 => Kind::LoadAcc,
            27 => Kind::StoreAcc,
            28 => Kind::TestRegReg,
            29 => Kind::TestRegImm,
            32 => Kind::Block,
            33 => Kind::DecimalString,
            34 => Kind::Convert,
            35 => Kind::MultiplyReg,
            36 => Kind::Bcwz,
            37 => Kind::ShiftRegCounted,
            38 => Kind::ShiftMemCounted,
            39 => Kind::Ldea,
            40 => Kind::XchRegReg,
            41 => Kind::MovRegSegment,
            42 => Kind::BrFar,
            43 => Kind::Dbnzne,
            44 => Kind::Dbnze,
            48 => Kind::In,
            49 => Kind::Out,
            50 => Kind::Stream,
            _ => Kind::General,
        }
    }
}
