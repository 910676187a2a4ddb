// Signed numbers: both widths are read as i64.
#![tactic(auto)]

ghost use Rattle.std.specs.Prelude.{◌≡◌};
ghost use Rattle.sheet.specs.Width.{signed_of, bits32};

// The number that x stands for, where h is half of all values.
#[tactic(auto, unfolding(sheet::specs::Width::signed_of))]
pub fn signed(h: u32, x: u32) -> i64
    ensures { result ≡ signed_of h x }
{
    if x < h {
        x as i64
    } else {
        let m = 2 * h as u64;
        x as i64 - m as i64
    }
}

// The low 32 bits of a number.
#[tactic(auto, using(std::proofs::lemmas::Int::ints), unfolding(sheet::specs::Width::bits32))]
pub fn low_bits(z: i64) -> u32
    ensures { result ≡ bits32 z }
{
    (z.cast_unsigned() % 4294967296) as u32
}
