// Code bytes, one after the other.
#![tactic(auto)]

ghost use Rattle.std.specs.Prelude.{ℕ, ◌+◌, ◌≤◌};
ghost use Rattle.sheet.specs.Reading.{byte, word as word_read, signed_byte, immediate as immediate_read};
ghost use Rattle.code_bytes.specs.Lent.{lent_code};
ghost use Rattle.sheet.specs.Contract.{Reads};
ghost use Rattle.code_answer.specs.Answer.{Takes};

use sheet::Prefixes;

// The code that the decoder is lent: what memory holds from PS:PC on.
#[derive(Clone, Copy)]
pub struct Code<'a> {
    pub ram: &'a [u8],
    pub rom: &'a [u8],
    pub ps: u16,
    pub pc: u16,
}

// A number that was read, and how many bytes were read then.
#[derive(Clone, Copy)]
pub struct NumberRead {
    pub value: u16,
    pub next: u16,
}

// An address with its segment.
#[derive(Clone, Copy)]
pub struct FarRead {
    pub offset: u16,
    pub segment: u16,
}

impl Code<'_> {
    // The byte after the first i.
    pub fn byte(self, i: u16) -> u8
        ensures { Reads ℕ byte (lent_code self.entry) i result (i + 1) }
    {
        mach_memory::read_byte(self.ram, self.rom, self.ps, self.pc.wrapping_add(i))
    }

    // Low byte first.
    pub fn word(self, i: u16) -> u16
        requires { i ≤ 8 }
        ensures { Reads ℕ word_read (lent_code self.entry) i result (i + 2) }
    {
        u16::from_le_bytes([self.byte(i), self.byte(i + 1)])
    }

    // A byte widened with its sign.
    pub fn short(self, i: u16) -> u16
        ensures { Reads ℕ signed_byte (lent_code self.entry) i result (i + 1) }
    {
        let b = self.byte(i) as u16;
        if b < 128 { b } else { b + 65280 }
    }

    // An immediate of a width.
    pub fn immediate(self, word: bool, i: u16) -> NumberRead
        requires { i ≤ 8 }
        ensures { Takes ℕ (immediate_read word) (lent_code self.entry) i result.value result.next 2 }
    {
        if word {
            return NumberRead {
                value: self.word(i),
                next: i + 2,
            };
        }
        NumberRead {
            value: self.byte(i) as u16,
            next: i + 1,
        }
    }

    // Four bytes: the offset, then the segment.
    pub fn far(self, i: u16) -> FarRead
        requires { i ≤ 6 }
        ensures { Reads ℕ word_read (lent_code self.entry) i result.offset (i + 2)
            × Reads ℕ word_read (lent_code self.entry) (i + 2) result.segment (i + 4) }
    {
        FarRead {
            offset: self.word(i),
            segment: self.word(i + 2),
        }
    }
}

// Where the decoder of native instructions is: the code, what the prefixes say, and how many bytes were read.
#[derive(Clone, Copy)]
pub struct Reader<'a> {
    pub code: Code<'a>,
    pub prefixes: Prefixes,
    pub read: u16,
    // a prefix or the second byte of a code is the fifth at the latest
    pub ghost few: { read ≤ 5 },
}

impl Reader<'_> {
    // What follows.
    pub fn byte(self) -> u8
        ensures { Reads ℕ byte (lent_code self.entry.code) self.entry.read result (self.entry.read + 1) }
    {
        self.code.byte(self.read)
    }

    pub fn word(self) -> u16
        ensures { Reads ℕ word_read (lent_code self.entry.code) self.entry.read result (self.entry.read + 2) }
    {
        self.code.word(self.read)
    }

    pub fn short(self) -> u16
        ensures { Reads ℕ signed_byte (lent_code self.entry.code) self.entry.read result (self.entry.read + 1) }
    {
        self.code.short(self.read)
    }

    pub fn immediate(self, word: bool) -> NumberRead
        ensures { Takes ℕ (immediate_read word) (lent_code self.entry.code) self.entry.read result.value result.next 2 }
    {
        self.code.immediate(word, self.read)
    }

    pub fn far(self) -> FarRead
        ensures { Reads ℕ word_read (lent_code self.entry.code) self.entry.read result.offset (self.entry.read + 2)
            × Reads ℕ word_read (lent_code self.entry.code) (self.entry.read + 2) result.segment (self.entry.read + 4) }
    {
        self.code.far(self.read)
    }
}
