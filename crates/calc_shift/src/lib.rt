// Shifts and rotates at either width, by the fixed 1 and by a count. No function here has a precondition.
#![tactic(auto)]

ghost use Rattle.std.specs.Prelude.{◌≡◌};
ghost use Rattle.sheet.specs.Psw as sheet;
ghost use Rattle.sheet.specs.Psw.{flag_of, becomes};
ghost use Rattle.sheet.specs.Shift.{leftward, comes_in, to_left, to_right, one_place, many_places};
ghost use Rattle.sheet.specs.Shift.{sign_moves, rotated, shifted, turned, shift_one, shift_many};
ghost use Rattle.sheet.specs.Contract.{flagged};
ghost use Rattle.calc_shift.specs.Carry.{carried};

use calc_flags::{AC, CY, Flags, V, flag};
use calc_psw::Outcome;
use calc_word::{choose, digit, half, only, sign, wrap};
use sheet::{Flagged, Shift, Turn};

fn is_leftward(kind: Shift) -> bool
    ensures { result ≡ leftward kind }
{
    matches!(kind, Shift::Rol | Shift::Rolc | Shift::Shl)
}

// The bit that comes in at the free end.
#[tactic(auto, unfolding(sheet::specs::Shift::comes_in))]
fn comes_in(kind: Shift, word: bool, t: Turn) -> bool
    ensures { result ≡ comes_in kind word t }
{
    match kind {
        Shift::Rol => sign(word, t.value),
        Shift::Ror => t.value % 2 == 1,
        Shift::Rolc | Shift::Rorc => t.cy,
        Shift::Shl | Shift::Shr => false,
        Shift::Shra => sign(word, t.value),
    }
}

// The carry that shift_one and shift_many are to be given: CY for the rotates through it.
pub fn carry_in(kind: Shift, psw: u16) -> bool
    ensures { result ≡ carried kind (flag_of psw sheet.CY) }
{
    matches!(kind, Shift::Rolc | Shift::Rorc) & flag::<CY>(psw)
}

// One place to the left, with b coming in.
#[tactic(auto, unfolding(sheet::specs::Shift::to_left))]
fn to_left(word: bool, b: bool, x: u16) -> Turn
    ensures { result ≡ to_left word b x }
{
    Turn {
        value: wrap(word, 2 * x as u32 + digit(b) as u32),
        cy: sign(word, x),
    }
}

// One place to the right, with b coming in.
#[tactic(auto, unfolding(sheet::specs::Shift::to_right))]
fn to_right(word: bool, b: bool, x: u16) -> Turn
    ensures { result ≡ to_right word b x }
{
    Turn {
        value: x / 2 + only(b, half(word)),
        cy: x % 2 == 1,
    }
}

// One place of a kind.
#[tactic(auto, unfolding(sheet::specs::Shift::one_place))]
fn one_place(kind: Shift, word: bool, t: Turn) -> Turn
    ensures { result ≡ one_place kind word t }
{
    let b = comes_in(kind, word, t);
    if is_leftward(kind) {
        to_left(word, b, t.value)
    } else {
        to_right(word, b, t.value)
    }
}

// n places, all 8 bits of a count: all but the last at once, then the last, and what goes out there is CY.
fn many_places(kind: Shift, word: bool, n: u8, t: Turn) -> Turn
    ensures { result ≡ many_places kind word n t }
{
    if n == 0 {
        return t;
    }
    let before = calc_shift_at_once::before_last(kind, word, n - 1, t);
    one_place(kind, word, before)
}

// V of the fixed count 1.
#[tactic(auto, unfolding(sheet::specs::Shift::sign_moves))]
fn sign_moves(kind: Shift, word: bool, t: Turn) -> bool
    ensures { result ≡ sign_moves kind word t }
{
    let below = sign(word, wrap(word, 2 * t.value as u32));
    sign(word, t.value) != choose(is_leftward(kind), t.cy, below)
}

// A rotate sets CY and V alone.
#[tactic(auto, unfolding(sheet::specs::Shift::rotated, sheet::specs::Contract::flagged, sheet::specs::Psw::settled))]
fn after_rotate(t: Turn, v: bool, psw: u16) -> Flagged
    ensures { result ≡ flagged (rotated t (becomes v)) psw }
{
    let f = Flags {
        cy: t.cy,
        v,
        ..Flags::from(psw)
    };
    Flagged {
        value: t.value,
        psw: calc_psw::affect(f, psw),
    }
}

// A shift keeps AC, which the sheet marks U.
#[tactic(auto, unfolding(sheet::specs::Shift::shifted, sheet::specs::Arithmetic::resulting, sheet::specs::Contract::flagged, sheet::specs::Psw::settled))]
fn after_shift(word: bool, t: Turn, v: bool, psw: u16) -> Flagged
    ensures { result ≡ flagged (shifted word t (becomes v)) psw }
{
    let o = Outcome {
        value: t.value,
        ac: flag::<AC>(psw),
        cy: t.cy,
        v,
    };
    calc_psw::result(word, o, psw)
}

#[tactic(auto, unfolding(sheet::specs::Shift::turned))]
fn after(kind: Shift, word: bool, t: Turn, v: bool, psw: u16) -> Flagged
    ensures { result ≡ flagged (turned kind word t (becomes v)) psw }
{
    match kind {
        Shift::Rol | Shift::Ror | Shift::Rolc | Shift::Rorc => after_rotate(t, v, psw),
        Shift::Shl | Shift::Shr | Shift::Shra => after_shift(word, t, v, psw),
    }
}

// The forms whose count is the fixed 1.
#[tactic(auto, unfolding(sheet::specs::Shift::shift_one))]
pub fn shift_one(kind: Shift, word: bool, x: u16, cy: bool, psw: u16) -> Flagged
    ensures { result ≡ flagged (shift_one kind word x cy) psw }
{
    let t = one_place(kind, word, Turn { value: x, cy });
    after(kind, word, t, sign_moves(kind, word, t), psw)
}

// The forms with a count. V, which the sheet marks U, keeps its value.
pub fn shift_many(kind: Shift, word: bool, n: u8, x: u16, cy: bool, psw: u16) -> Flagged
    ensures { result ≡ flagged (shift_many kind word n x cy) psw }
{
    let t = many_places(kind, word, n, Turn { value: x, cy });
    after(kind, word, t, flag::<V>(psw), psw)
}
