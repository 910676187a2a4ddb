// listlog for logs of document 01's gap rule. In the gate: a gap at that rule's ceiling, and one of four groups behind it.
#![tactic(auto)]

use sheet::GapRule;

fn main(rt: HostRuntime) {
    log_run::run(rt, GapRule::Old);
}
