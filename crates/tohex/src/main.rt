// Writes a ROM image as Intel HEX.
#![tactic(auto)]

fn main(rt: HostRuntime) {
    hex_run::to_hex(rt);
}
