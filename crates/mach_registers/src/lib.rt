// The register file in code: fourteen words, lent. PSW is the last of them and no register.
#![tactic(auto)]

ghost use Rattle.std.specs.Prelude.{◌≡◌, ℕ};
ghost use Rattle.sheet.specs.Registers.{file_of, segment, read_reg};
ghost use Rattle.sheet.specs.Act.{◌≔◌};
ghost use Rattle.sheet.specs.Operand.{set_reg};
ghost use Rattle.sheet.specs.Contract.{OnFile};

pub const AW: usize = 0;

pub const CW: usize = 1;

pub const DW: usize = 2;

pub const BW: usize = 3;

pub const SP: usize = 4;

pub const BP: usize = 5;

pub const IX: usize = 6;

pub const IY: usize = 7;

pub const DS1: usize = 8;

pub const PS: usize = 9;

pub const SS: usize = 10;

pub const DS0: usize = 11;

pub const PC: usize = 12;

pub const PSW: usize = 13;

// The register of a width that n names.
pub fn reg(word: bool, file: &[u16; 14], n: u8) -> u16
    ensures { result ≡ read_reg word (file_of file.now) n }
{
    if word {
        let i = (n % 8) as usize;
        return file[i];
    }
    let i = (n % 4) as usize;
    let held = file[i];
    if n % 8 < 4 {
        return held % 256;
    }
    held / 256
}

pub fn set_reg(word: bool, file: &mut [u16; 14], n: u8, v: u16)
    ensures { OnFile Unit (set_reg word n v) file.old tt file.new }
{
    if word {
        let i = (n % 8) as usize;
        file[i] = v;
        return;
    }
    let i = (n % 4) as usize;
    let old = file[i];
    if n % 8 < 4 {
        file[i] = old / 256 * 256 + v % 256;
        return;
    }
    file[i] = v % 256 * 256 + old % 256;
}

// The word of the segment register that a two-bit number names.
pub fn base(file: &[u16; 14], seg: u8) -> u16
    ensures { result ≡ file_of file.now (segment seg) }
{
    let i = 8 + (seg % 4) as usize;
    file[i]
}

pub fn set_base(file: &mut [u16; 14], seg: u8, v: u16)
    ensures { OnFile Unit (◌≔◌ (segment seg) v) file.old tt file.new }
{
    let at = 8 + (seg % 4) as usize;
    file[at] = v;
}
