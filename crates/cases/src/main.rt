// Answers the case stream on standard input. In the gate: a case for each of the five calls, then one that is cut off.
#![tactic(auto)]

mod call;
mod stream;

fn main(rt: HostRuntime) {
    stream::run(rt);
}
