// The bytes of a case stream: numbers of two and four bytes, and buffers that are patched and summed.
#![tactic(auto)]

ghost use Rattle.std.specs.Prelude.{◌≡◌, ◌+◌, ◌*◌, ◌/◌, ◌≤◌, length, set};
ghost use Rattle.case_bytes.specs.Numbers.{word_at, double_at, word_put, double_put};
ghost use Rattle.case_bytes.specs.Buffers.{mixed, sum_of, patched_at, patched, kinds_of};

// ---- numbers, the lowest byte first

#[tactic(auto, unfolding(crate::specs::Numbers::word_at, crate::specs::Numbers::word_of))]
pub fn word_at(bytes: &[u8], at: usize) -> u16
    requires { at + 2 ≤ length bytes.now }
    ensures { result ≡ word_at bytes.now at }
{
    u16::from_le_bytes([bytes[at], bytes[at + 1]])
}

#[tactic(auto, unfolding(crate::specs::Numbers::double_at, crate::specs::Numbers::double_of, crate::specs::Numbers::word_at, crate::specs::Numbers::word_of))]
pub fn double_at(bytes: &[u8], at: usize) -> u32
    requires { at + 4 ≤ length bytes.now }
    ensures { result ≡ double_at bytes.now at }
{
    u32::from_le_bytes([bytes[at], bytes[at + 1], bytes[at + 2], bytes[at + 3]])
}

#[tactic(auto, unfolding(crate::specs::Numbers::word_put))]
pub fn put_word(bytes: &mut [u8], at: usize, value: u16)
    requires { at + 2 ≤ length bytes.old }
    ensures { bytes.new ≡ word_put bytes.old at value }
{
    let [low, high] = value.to_le_bytes();
    bytes[at] = low;
    bytes[at + 1] = high;
}

#[tactic(auto, unfolding(crate::specs::Numbers::double_put, crate::specs::Numbers::word_put))]
pub fn put_double(bytes: &mut [u8], at: usize, value: u32)
    requires { at + 4 ≤ length bytes.old }
    ensures { bytes.new ≡ double_put bytes.old at value }
{
    let [a, b, c, d] = value.to_le_bytes();
    bytes[at] = a;
    bytes[at + 1] = b;
    bytes[at + 2] = c;
    bytes[at + 3] = d;
}

// ---- buffers

// One byte more in a sum.
#[tactic(auto, unfolding(crate::specs::Buffers::mixed))]
fn mix(sum: u32, byte: u8) -> u32
    ensures { result ≡ mixed sum byte }
{
    (sum ^ u32::from(byte)).wrapping_mul(16777619)
}

// The sum of a buffer: FNV-1a over 32 bits.
#[tactic(auto, unfolding(crate::specs::Buffers::sum_of))]
pub fn sum(bytes: &[u8]) -> u32
    ensures { result ≡ sum_of 2166136261 bytes.now }
{
    bytes.iter().fold(2166136261, |sum, byte| mix(sum, *byte))
}

// One byte stored, unless its index lies past the end.
fn put(buffer: &mut [u8], index: usize, value: u8)
    ensures { buffer.new ≡ set buffer.old index value }
{
    if index < buffer.len() {
        buffer[index] = value;
    }
}

// The patch of six bytes at a place, where it is of the kind.
fn patch(buffer: &mut [u8], kind: u8, patches: &[u8], at: usize)
    requires { at + 6 ≤ length patches.now }
    ensures { buffer.new ≡ patched_at kind patches.now at buffer.old }
{
    if patches[at] == kind {
        let index = double_at(patches, at + 1) as usize;
        let value = patches[at + 5];
        put(buffer, index, value);
    }
}

// Whether the first n patches are of kinds that there are.
pub fn kinds(patches: &[u8], n: usize) -> bool
    requires { n * 6 ≤ length patches.now }
    ensures { result ≡ kinds_of patches.now n }
{
    for i in 0..n {
        if 2 < patches[i * 6] {
            return false;
        }
    }
    true
}

// Whether all whole patches are.
pub fn all_kinds(patches: &[u8]) -> bool
    ensures { result ≡ kinds_of patches.now (length patches.now / 6) }
{
    kinds(patches, patches.len() / 6)
}

// The first n patches, as far as they are of the kind.
pub fn patch_all(buffer: &mut [u8], kind: u8, patches: &[u8], n: usize)
    requires { n * 6 ≤ length patches.now }
    ensures { buffer.new ≡ patched kind patches.now n buffer.old }
{
    for i in 0..n {
        patch(buffer, kind, patches, i * 6);
    }
}

// All whole patches, as far as they are of the kind.
pub fn patch_whole(buffer: &mut [u8], kind: u8, patches: &[u8])
    ensures { buffer.new ≡ patched kind patches.now (length patches.now / 6) buffer.old }
{
    patch_all(buffer, kind, patches, patches.len() / 6);
}
