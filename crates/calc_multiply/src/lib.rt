// Products of MULU and MUL at either width. No public function has a precondition.
#![tactic(auto)]

ghost use Rattle.std.specs.Prelude.{◌≡◌, ◌<◌, ◌*ℤ◌};
ghost use Rattle.std.specs.Int.Signed.{mag};
ghost use Rattle.sheet.specs.Psw.{column, keeps, settled};
ghost use Rattle.sheet.specs.Multiply.{fits_signed, product_column, signed_product, unsigned_product};

use calc_flags::Flags;
use calc_signed::{low_bits, signed};
use sheet::Product;

// MULU.
#[tactic(auto, unfolding(sheet::specs::Multiply::unsigned_product))]
pub fn unsigned_product(word: bool, a: u16, b: u16) -> Product
    ensures { result ≡ unsigned_product word a b }
{
    let bits = a as u32 * b as u32;
    Product {
        bits,
        exceeds: calc_word::modulus(word) <= bits,
    }
}

// The product of two operands.
fn times(x: i64, y: i64) -> i64
    requires { (mag x < 65536) × (mag y < 65536) }
    ensures { result ≡ x *ℤ y }
{
    x * y
}

// Whether an operand of the width can hold z.
#[tactic(auto, unfolding(sheet::specs::Multiply::fits_signed))]
fn fits(word: bool, z: i64) -> bool
    ensures { result ≡ fits_signed word z }
{
    let h = calc_word::half(word);
    (-(h as i64) <= z) & (z < h as i64)
}

// MUL, with one operand or two.
pub fn signed_product(word: bool, a: u16, b: u16) -> Product
    ensures { result ≡ signed_product word a b }
{
    let h = calc_word::half(word) as u32;
    let z = times(signed(h, a as u32), signed(h, b as u32));
    Product {
        bits: low_bits(z),
        exceeds: !fits(word, z),
    }
}

// PSW after a product: CY and V say whether it exceeds its lower half.
#[tactic(auto, unfolding(sheet::specs::Psw::settled))]
pub fn product_psw(p: Product, psw: u16) -> u16
    ensures { result ≡ settled keeps (column (product_column p)) psw }
{
    let f = Flags {
        cy: p.exceeds,
        v: p.exceeds,
        ..Flags::from(psw)
    };
    calc_psw::affect(f, psw)
}
