// Rebuilds a ROM image from the lines of its listing on standard input.
#![tactic(auto)]

use sheet::Refusal;
use std::io::Print;

fn image_buffer() -> [u8; 32768] {
    [0; 32768]
}

fn say(rt: HostRuntime, text: &[u8]) {
    let _ = rt.stderr().write_all(text);
}

// Writes the image that lines name.
fn print_image(rt: HostRuntime, lines: &[u8]) {
    let mut scratch = image_buffer();
    let mut out = image_buffer();
    match rom_list::rebuild::rebuild(lines, &mut scratch, &mut out) {
        Ok(len) => {
            if rt.stdout().write_all(&out[..len]).is_err() {
                say(rt, b"romimage: cannot write the image\n");
            }
        }
        Err(Refusal::NotAListing) => {
            say(rt, b"romimage: 16: these are not the lines of a listing\n");
        }
        Err(_) => say(rt, b"romimage: 6: the image is too long\n"),
    }
}

fn main(rt: HostRuntime) {
    let mut lines = rom_list::lines_buffer();
    let n = base_input::read_full(&mut rt.stdin(), &mut lines);
    if n == 2621441 || base_input::at_end(&mut rt.stdin()) {
        print_image(rt, &lines[..n]);
    } else {
        say(rt, b"romimage: cannot read the lines\n");
    }
}
