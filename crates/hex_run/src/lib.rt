// The programs over Intel HEX as a library, so that a program is one call. An empty argument is left out.
#![tactic(auto)]

use console_files::{load, say, say_number};
use hex_read::Faulty;
use sheet::Refusal;
use std::io::Print;

// The buffers come from functions: of a call's result the length is known, and no check computes its elements.

fn image_buffer() -> [u8; 1048576] {
    [0; 1048576]
}

// Room for the text of the longest image, and for most that others write.
fn text_buffer() -> [u8; 4194304] {
    [0; 4194304]
}

// The address that an argument gives; without it the image ends at FFFFFh. No image begins above 100000h.
fn base(rt: HostRuntime, index: usize, len: usize) -> u32 {
    if console_files::is_left_out(rt, index) {
        if len < 1048576 {
            return 1048576 - len as u32;
        }
        return 0;
    }
    match console_files::number(rt, index) {
        Some(base @ 0..=1048576) => base as u32,
        _ => 1048577,
    }
}

// Writes the text of an image.
fn print_text(rt: HostRuntime, image: &[u8], base: u32) {
    let mut out = text_buffer();
    match hex_write::write(image, base, &mut out) {
        Ok(len) => {
            let n = console_files::within(len, &out);
            if rt.stdout().write_all(&out[..n]).is_err() {
                say(rt, b"cannot write the text\n");
            }
        }
        Err(Refusal::OutsideImage) => say(rt, b"12: the image reaches past FFFFFh\n"),
        Err(_) => say(rt, b"6: the text is too long\n"),
    }
}

// IMAGE and ADDRESS to a text on standard output.
pub fn to_hex(rt: HostRuntime) {
    let mut image = image_buffer();
    if let Ok(len) = load(rt, 1, &mut image) {
        print_text(rt, &image[..len], base(rt, 2, len));
    }
}

// Says why a text was refused.
fn refuse(rt: HostRuntime, faulty: Faulty) {
    say_number(rt, faulty.refusal.number() as u64);
    say(rt, b": line ");
    say_number(rt, faulty.line as u64);
    match faulty.refusal {
        Refusal::MalformedLine => say(
            rt,
            b": is no line of Intel HEX that is taken here, or the end line is missing, or text follows it\n",
        ),
        Refusal::WrongChecksum => say(rt, b": its checksum is wrong\n"),
        _ => say(rt, b": names a byte outside the image\n"),
    }
}

// Writes the image once a text was read into it.
fn print_image(rt: HostRuntime, text: &[u8], image: &mut [u8], base: u32) {
    match hex_read::read(text, image, base) {
        Ok(()) => {
            if rt.stdout().write_all(image).is_err() {
                say(rt, b"cannot write the image\n");
            }
        }
        Err(faulty) => refuse(rt, faulty),
    }
}

// TEXT, IMAGE and ADDRESS to the image with the text's bytes, on standard output.
pub fn from_hex(rt: HostRuntime) {
    let mut text = text_buffer();
    let Ok(size) = load(rt, 1, &mut text) else {
        return;
    };
    let mut image = image_buffer();
    if let Ok(len) = load(rt, 2, &mut image) {
        let first = base(rt, 3, len);
        print_image(rt, &text[..size], &mut image[..len], first);
    }
}
