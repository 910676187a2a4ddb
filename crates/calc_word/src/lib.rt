// The two widths of an operand in code: `word` is the sheet's bit W, true for a word and false for a byte.
// No function here has a precondition. `modulus`, `half` and `bytes` name the numbers that they pick by the width: a generic pick would be the `if` again.
#![tactic(auto)]

ghost use Rattle.std.specs.Prelude.{◌≡◌, ◌≤◌};
ghost use Rattle.sheet.specs.Width.{pick, mod_of, half_of, bytes_of, wrap_of, sign_of, even_of, add16, sub16, extend};
ghost use Rattle.sheet.specs.Psw.{bit};

// The low 16 or 8 bits.
#[tactic(auto, unfolding(sheet::specs::Width::wrap_of))]
pub fn wrap(word: bool, x: u32) -> u16
    ensures { result ≡ wrap_of word x }
{
    if word {
        (x % 65536) as u16
    } else {
        (x % 256) as u16
    }
}

// How many values an operand has.
pub fn modulus(word: bool) -> u32
    ensures { result ≡ mod_of word }
{
    if word { 65536 } else { 256 }
}

// Half as many: the first value that is negative. Its bound serves the sums that it goes into.
pub fn half(word: bool) -> u16
    ensures { (result ≡ half_of word) × (result ≤ 32768) }
{
    if word { 32768 } else { 128 }
}

// How many bytes an operand has, with its bound for the same use.
pub fn bytes(word: bool) -> u16
    ensures { (result ≡ bytes_of word) × (result ≤ 2) }
{
    if word { 2 } else { 1 }
}

// Bit 15 or 7.
#[tactic(auto, unfolding(sheet::specs::Width::sign_of))]
pub fn sign(word: bool, x: u16) -> bool
    ensures { result ≡ sign_of word x }
{
    half(word) <= x
}

// P: the low byte has an even count of ones.
#[tactic(auto, unfolding(sheet::specs::Width::even_of))]
pub fn even(x: u16) -> bool
    ensures { result ≡ even_of x }
{
    u8::count_ones((x % 256) as u8) % 2 != 1
}

// A byte widened to a word with its sign.
#[tactic(auto, unfolding(sheet::specs::Width::extend, sheet::specs::Width::sign_of))]
pub fn sign_extend(b: u8) -> u16
    ensures { result ≡ extend b }
{
    i16::from(b.cast_signed()).cast_unsigned()
}

// Offsets and registers wrap at 65,536.
pub fn plus16(a: u16, b: u16) -> u16
    ensures { result ≡ add16 a b }
{
    a.wrapping_add(b)
}

pub fn minus16(a: u16, b: u16) -> u16
    ensures { result ≡ sub16 a b }
{
    a.wrapping_sub(b)
}

// A flag as a digit, with its bound for the sums that it goes into.
pub fn digit(b: bool) -> u16
    ensures { (result ≡ bit b) × (result ≤ 1) }
{
    u16::from(b)
}

// k where the test holds, else 0, with its bound for the sums that it goes into.
pub fn only(test: bool, k: u16) -> u16
    ensures { (result ≡ pick test k 0) × (result ≤ k) }
{
    if test { k } else { 0 }
}

// One of two flags.
pub fn choose(test: bool, a: bool, b: bool) -> bool
    ensures { result ≡ pick test a b }
{
    if test { a } else { b }
}

// A word as it is: what is read from a lent array has its range from here on.
pub fn word(x: u16) -> u16
    ensures { result ≡ x }
{
    x
}

// A byte as a word, for the same use.
pub fn byte(x: u8) -> u16
    ensures { (result ≡ x) × (result ≤ 255) }
{
    x as u16
}
