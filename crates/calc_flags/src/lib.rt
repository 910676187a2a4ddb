// PSW in code: its flags one by one and together, MD, and its fixed bits. No function here has a precondition on PSW.
#![tactic(auto)]

ghost use Rattle.std.specs.Prelude.{◌≡◌, ◌<◌};
ghost use Rattle.sheet.specs.Psw.{at, pack, fixed_of};
ghost use Rattle.calc_flags.specs.Flags.{held, unpacked};

use calc_word::digit;

#[derive(Clone, Copy)]
pub struct Flags {
    pub cy: bool,
    pub p: bool,
    pub ac: bool,
    pub z: bool,
    pub s: bool,
    pub brk: bool,
    pub ie: bool,
    pub dir: bool,
    pub v: bool,
}

// The flags' bits as powers of two, and MD's.
pub const CY: u16 = 1;

pub const P: u16 = 4;

pub const AC: u16 = 16;

pub const Z: u16 = 64;

pub const S: u16 = 128;

pub const BRK: u16 = 256;

pub const IE: u16 = 512;

pub const DIR: u16 = 1024;

pub const V: u16 = 2048;

pub const MD: u16 = 32768;

// Bits 1 and 12 to 14 are always one.
const FIXED: u16 = 0x7002;

// The flag, or MD, whose bit is this power of two.
pub fn flag<const WEIGHT: u16>(psw: u16) -> bool
    ensures { result ≡ at psw WEIGHT }
{
    if WEIGHT == 0 {
        return false;
    }
    psw / WEIGHT % 2 == 1
}

// All nine of a PSW, whatever its fixed bits are.
impl From<u16> for Flags {
    ghost from_gives = { λ psw f. f ≡ unpacked psw };

    fn from(psw: u16) -> Flags {
        Flags {
            cy: flag::<CY>(psw),
            p: flag::<P>(psw),
            ac: flag::<AC>(psw),
            z: flag::<Z>(psw),
            s: flag::<S>(psw),
            brk: flag::<BRK>(psw),
            ie: flag::<IE>(psw),
            dir: flag::<DIR>(psw),
            v: flag::<V>(psw),
        }
    }
}

impl Flags {
    // PSW of MD and the flags, with its fixed bits.
    pub fn pack(self, md: bool) -> u16
        ensures { result ≡ pack md (held self) }
    {
        FIXED
            + MD * digit(md)
            + CY * digit(self.cy)
            + P * digit(self.p)
            + AC * digit(self.ac)
            + Z * digit(self.z)
            + S * digit(self.s)
            + BRK * digit(self.brk)
            + IE * digit(self.ie)
            + DIR * digit(self.dir)
            + V * digit(self.v)
    }
}

// The fixed bits are as they must be.
pub fn fixed(psw: u16) -> bool
    ensures { result ≡ fixed_of psw }
{
    psw == Flags::from(psw).pack(flag::<MD>(psw))
}
