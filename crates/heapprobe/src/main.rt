// Does the cases of standard input, one call a line, and prints the answer and the whole heap afterwards.
#![tactic(auto)]

fn main(rt: HostRuntime) {
    text_probe::run(&rt);
}
