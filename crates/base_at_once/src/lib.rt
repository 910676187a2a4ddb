// Numbers moved by many places at once: doubled or halved so often, or turned round among so many bits.
#![tactic(auto)]

ghost use Rattle.std.specs.Prelude.{◌≡◌, ◌+◌, ◌*◌, ◌%◌, ◌^◌, ◌≤◌, ◌<◌, min};
ghost use Rattle.base_at_once.specs.AtOnce.{down_by, right_by, around, turns};

// Past 16 places nothing is left to move: no operand has more bits.
fn at_most_16(n: u8) -> u8
    ensures { result ≡ min n 16 }
{
    n.min(16)
}

// Doubled n times, as far as the low 16 bits show.
pub fn up(n: u8, x: u16) -> u32
    ensures { result % 65536 ≡ x * 2 ^ n % 65536 }
{
    (x as u32) << at_most_16(n)
}

// Halved n times. Where ones come in above, m is the number that no operand reaches; where zeros do, it is 0.
pub fn down(n: u8, m: u32, x: u16) -> u16
    requires { m ≤ 65536 }
    ensures { result ≡ down_by n m x }
{
    let k = at_most_16(n);
    let above = ((m as u64) << k) - m as u64;
    ((x as u64 + above) >> k) as u16
}

// r places to the right among r + s bits: the r low bits come to stand above the s others.
fn turn(r: u8, s: u8, x: u32) -> u32
    requires { (r + s ≤ 17) × (x < 131072) }
    ensures { result ≡ around r s x }
{
    let low = x % (1u32 << r);
    (x >> r) + (low << s)
}

// A number of so many bits comes round to itself. What lies beyond them, as in no operand, comes in below, until nothing does.
fn whole_turns(bits: u8, times: u8, x: u32) -> u32
    requires { (bits ≤ 17) × (x < 131072) }
    ensures { (result ≡ turns bits times x) × (result ≤ x) }
{
    if times == 0 {
        return x;
    }
    let once = turn(bits, 0, x);
    if times == 1 {
        return once;
    }
    turn(bits, 0, once)
}

// n places to the right: whole turns, and then only the rest of n counts.
pub fn right(bits: u8, n: u8, x: u32) -> u32
    requires { (0 < bits) × ((bits ≤ 17) × ((x < 131072) × (x < 2 ^ (bits + bits)))) }
    ensures { result ≡ right_by bits n x }
{
    let rest = n % bits;
    turn(rest, bits - rest, whole_turns(bits, n / bits, x))
}

// n places to the left: only the rest of n counts, and it is what is left of a turn to the right.
pub fn left(bits: u8, n: u8, x: u32) -> u32
    requires { (0 < bits) × ((bits ≤ 17) × (x < 2 ^ bits)) }
    ensures { (right_by bits n result ≡ x) × (result < 2 ^ bits) }
{
    let rest = n % bits;
    turn(bits - rest, rest, x)
}
