// The listing of document 01, as `heaprun` does it.
#![tactic(auto)]

fn main(rt: HostRuntime) {
    text_run::run(&rt);
}
