// Lists the ROM image on standard input.
#![tactic(auto)]

use sheet::Refusal;
use std::io::Print;

// One byte more than an image may have, so that a longer input is known.
fn image_buffer() -> [u8; 32769] {
    [0; 32769]
}

fn say(rt: HostRuntime, text: &[u8]) {
    let _ = rt.stderr().write_all(text);
}

// Prints the listing of an image.
fn print_lines(rt: HostRuntime, image: &[u8]) {
    let mut out = rom_list::lines_buffer();
    match rom_list::list(image, &mut out) {
        Ok(len) => {
            if rt.stdout().write_all(&out[..len]).is_err() {
                say(rt, b"listrom: cannot write the listing\n");
            }
        }
        Err(Refusal::ImageTooLong) => {
            say(rt, b"listrom: 17: the image has more than 32768 bytes\n");
        }
        Err(_) => say(rt, b"listrom: 6: the listing is too long\n"),
    }
}

fn main(rt: HostRuntime) {
    let mut image = image_buffer();
    let n = base_input::read_full(&mut rt.stdin(), &mut image);
    if n == 32769 || base_input::at_end(&mut rt.stdin()) {
        print_lines(rt, &image[..n]);
    } else {
        say(rt, b"listrom: cannot read the image\n");
    }
}
