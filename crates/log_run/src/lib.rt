// The listing program as a library, so that a program over it is one call. What is printed is `log_listing::report`'s to say.
#![tactic(auto)]

use sheet::GapRule;
use std::io::{Eprint, Print};

// One byte more than a log may have, so that a longer input is known.
const INPUT: usize = 65537;

// Room for the longest listing: 12 bytes for each byte of a log, and 40.
const OUTPUT: usize = 786472;

// A buffer comes from a function: of a call's result the length is known, and no check computes its elements.
fn bytes<const N: usize>() -> [u8; N] {
    [0; N]
}

// Prints the listing of a log that was written under a rule.
fn print(rt: HostRuntime, log: &[u8], rule: GapRule) {
    let mut out: [u8; OUTPUT] = bytes();
    let n = log_listing::report(log, rule, &mut out);
    if rt.stdout().write_all(&out[..n]).is_err() {
        let _ = eprintln!(rt; "listlog: cannot write the listing");
    }
}

// Prints the listing of the log on standard input.
pub fn run(rt: HostRuntime, rule: GapRule) {
    let mut input: [u8; INPUT] = bytes();
    let n = base_input::read_full(&mut rt.stdin(), &mut input);
    if n == INPUT || base_input::at_end(&mut rt.stdin()) {
        print(rt, &input[..n], rule);
    } else {
        let _ = eprintln!(rt; "listlog: cannot read the input");
    }
}
