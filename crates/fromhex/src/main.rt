// Reads Intel HEX into a ROM image.
#![tactic(auto)]

fn main(rt: HostRuntime) {
    hex_run::from_hex(rt);
}
