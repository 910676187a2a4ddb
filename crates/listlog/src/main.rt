// Lists the port log on standard input, as the engine writes it. In the gate: document 01's sample.
#![tactic(auto)]

use sheet::GapRule;

fn main(rt: HostRuntime) {
    log_run::run(rt, GapRule::New);
}
