// The words of INS and EXT: a bit field put in or taken out. The offset and the length's code are given as they stand in their registers.
#![tactic(auto)]

ghost use Rattle.std.specs.Prelude.{◌≡◌, ◌+◌, ◌-◌, ◌/◌, ◌%◌, ◌^◌, ◌<◌, ◌≤◌, min};
ghost use Rattle.sheet.specs.Fields.{replaced, field_of};

// 2 to the power k, with its bounds for the quotients and products that it goes into.
fn power(k: u64) -> u64
    requires { k ≤ 16 }
    ensures { (result ≡ 2 ^ k) × (0 < result) × (result ≤ 65536) }
{
    1 << k
}

// x with its n bits from bit `at` on replaced by the low n bits of v.
fn put(x: u16, at: u64, n: u64, v: u16) -> u16
    requires { at + n ≤ 16 }
    ensures { result ≡ replaced x at n v }
{
    let low = power(at);
    let len = power(n);
    let top = power(at + n);
    (x as u64 / top * top + v as u64 % len * low + x as u64 % low) as u16
}

// The bits of v from bit k on.
fn above(v: u16, k: u64) -> u16
    requires { k ≤ 16 }
    ensures { result ≡ v / 2 ^ k }
{
    (v as u64 / power(k)) as u16
}

// The first word of INS, which takes what fits above the offset.
pub fn first(x: u16, offset: u16, code: u16, v: u16) -> u16
    ensures { result ≡ replaced x (offset % 16) (min (code % 16 + 1) (16 - offset % 16)) v }
{
    let at = offset as u64 % 16;
    let fits = (code as u64 % 16 + 1).min(16 - at);
    put(x, at, fits, v)
}

// Its second word, which takes the rest.
pub fn second(x: u16, offset: u16, code: u16, v: u16) -> u16
    ensures { result ≡ replaced x 0 (offset % 16 + (code % 16 + 1) - 16) (v / 2 ^ (16 - offset % 16)) }
{
    let at = offset as u64 % 16;
    let rest = (at + (code as u64 % 16 + 1)).saturating_sub(16);
    put(x, 0, rest, above(v, 16 - at))
}

// The field that EXT takes out of one word or two.
#[tactic(auto, unfolding(sheet::specs::Fields::field_of))]
pub fn taken(x: u32, offset: u16, code: u16) -> u16
    ensures { result ≡ field_of x (offset % 16) (code % 16 + 1) }
{
    let low = power(offset as u64 % 16);
    let len = power(code as u64 % 16 + 1);
    (x as u64 / low % len) as u16
}
