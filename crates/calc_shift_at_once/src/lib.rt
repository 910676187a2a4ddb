// All places of a shift or rotate but the last, at once. The last place is taken by itself: the bit that goes out there is CY.
// Every u16 is taken, as the definition takes it; that a byte cannot hold some of them matters to `fit` and to whole turns alone.
#![tactic(auto)]

ghost use Rattle.std.specs.Prelude.{◌≡◌, ◌+◌, ◌<◌, ◌≤◌};
ghost use Rattle.sheet.specs.declared.Shift.TheVariants.{Rol, Ror, Rolc, Rorc, Shl, Shr, Shra};
ghost use Rattle.sheet.specs.Width.{pick, mod_of};
ghost use Rattle.calc_shift_at_once.specs.BeforeLast.{BeforeLast, width_of, fit_of, part_of};

use calc_word::{half, modulus, only, sign, wrap};
use sheet::{Shift, Turn};

// How many bits an operand has.
fn width(word: bool) -> u8
    ensures { (result ≡ width_of word) × (result ≤ 16) }
{
    if word { 16 } else { 8 }
}

// A number within the width, with the sign that it had: an operand stays as it is.
fn fit(word: bool, x: u16) -> u16
    ensures { result ≡ fit_of word x }
{
    let h = half(word);
    x % h + only(sign(word, x), h)
}

// A bit above the operand: the width's modulus where it is set.
fn above(word: bool, set: bool) -> u32
    ensures { (result ≡ pick set (mod_of word) 0) × (result ≤ 65536) }
{
    if set { modulus(word) } else { 0 }
}

// CY as the highest bit, above the operand.
fn join(word: bool, x: u16, cy: bool) -> u32
    ensures { result ≡ x + pick cy (mod_of word) 0 }
{
    x as u32 + above(word, cy)
}

// CY and the operand apart again.
fn part(word: bool, y: u32) -> Turn
    requires { y < mod_of word + 65536 }
    ensures { result ≡ part_of word y }
{
    let m = modulus(word);
    if y < m {
        return Turn {
            value: y as u16,
            cy: false,
        };
    }
    Turn {
        value: (y - m) as u16,
        cy: true,
    }
}

// ROL: the operand comes round again after as many places as it has bits.
fn rol(word: bool, m: u8, t: Turn) -> Turn
    ensures { BeforeLast Rol word m t result }
{
    let y = base_at_once::left(width(word), m, fit(word, t.value) as u32);
    Turn {
        value: y as u16,
        ..t
    }
}

// ROR: likewise.
fn ror(word: bool, m: u8, t: Turn) -> Turn
    ensures { BeforeLast Ror word m t result }
{
    let y = base_at_once::right(width(word), m, t.value as u32);
    Turn {
        value: y as u16,
        ..t
    }
}

// ROLC: CY goes round with the operand, so it comes round after one place more.
fn rolc(word: bool, m: u8, t: Turn) -> Turn
    ensures { BeforeLast Rolc word m t result }
{
    let whole = join(word, fit(word, t.value), t.cy);
    part(word, base_at_once::left(width(word) + 1, m, whole))
}

// RORC: likewise.
fn rorc(word: bool, m: u8, t: Turn) -> Turn
    ensures { BeforeLast Rorc word m t result }
{
    let whole = join(word, t.value, t.cy);
    part(word, base_at_once::right(width(word) + 1, m, whole))
}

// SHL: doubled at each place; past the width nothing is left.
fn shl(word: bool, m: u8, t: Turn) -> Turn
    ensures { BeforeLast Shl word m t result }
{
    let y = base_at_once::up(m, fit(word, t.value));
    Turn {
        value: wrap(word, y),
        ..t
    }
}

// SHR: halved at each place; past the width nothing is left.
fn shr(word: bool, m: u8, t: Turn) -> Turn
    ensures { BeforeLast Shr word m t result }
{
    Turn {
        value: base_at_once::down(m, 0, t.value),
        ..t
    }
}

// SHRA: halved at each place, with the sign coming in; past the width only that is left.
fn shra(word: bool, m: u8, t: Turn) -> Turn
    ensures { BeforeLast Shra word m t result }
{
    Turn {
        value: base_at_once::down(m, above(word, sign(word, t.value)), t.value),
        ..t
    }
}

// The operand after m places of a kind, before one more.
pub fn before_last(kind: Shift, word: bool, m: u8, t: Turn) -> Turn
    ensures { BeforeLast kind word m t result }
{
    match kind {
        Shift::Rol => rol(word, m, t),
        Shift::Ror => ror(word, m, t),
        Shift::Rolc => rolc(word, m, t),
        Shift::Rorc => rorc(word, m, t),
        Shift::Shl => shl(word, m, t),
        Shift::Shr => shr(word, m, t),
        Shift::Shra => shra(word, m, t),
    }
}
