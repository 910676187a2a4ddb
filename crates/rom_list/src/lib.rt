// The listing of a ROM: all its lines, one after the other.
#![tactic(auto)]

pub mod line;
pub mod rebuild;

ghost use Rattle.std.specs.Prelude.{◌≡◌, ◌≤◌, length};
ghost use Rattle.sheet.specs.Refusals.{number_in};
ghost use Rattle.base_laws.specs.Writes.{Writes};
ghost use Rattle.base_text.specs.Length.{length_in};
ghost use Rattle.rom_form.specs.Listing.{listing};
ghost use Rattle.rom_list.specs.Lists.{Lists};

use base_text::put_bytes;
use line::line_at;
use sheet::Refusal;

// An image ends where the addresses do.
const TOP: u32 = 1048576;

// How long all lines are together. The size of each line says where the next begins, so no range has the addresses.
fn measure(image: &[u8]) -> usize
    requires { length image.now ≤ 32768 }
    ensures { result ≡ length (listing image.now) }
{
    let mut a = TOP - image.len() as u32;
    let mut sum = 0;
    while a < TOP {
        let made = line_at(image, a);
        sum += made.line.len();
        a += made.size as u32;
    }
    sum
}

fn put_lines(out: &mut [u8], image: &[u8]) -> usize
    requires { (length (listing image.now) ≤ length out.old) × (length image.now ≤ 32768) }
    ensures { Writes (listing image.now) out.old result out.new }
{
    let mut a = TOP - image.len() as u32;
    let mut at = 0;
    while a < TOP {
        let made = line_at(image, a);
        at += put_bytes(&mut out[at..], made.line.as_bytes());
        a += made.size as u32;
    }
    at
}

// The length of the listing, which stands at the start of `out`.
pub fn list(image: &[u8], out: &mut [u8]) -> Result<usize, Refusal>
    ensures { Lists image.now out.old (number_in result) (length_in result) out.new }
{
    if 32768 < image.len() {
        return Err(Refusal::ImageTooLong);
    }
    if out.len() < measure(image) {
        return Err(Refusal::NoRoom);
    }
    Ok(put_lines(out, image))
}

// Room for the longest listing, 80 bytes for each byte of an image, and one more: of a call's result the length is known.
pub fn lines_buffer() -> [u8; 2621441] {
    [0; 2621441]
}
