// Does the lines of standard input, one call a line, and prints what each answers.
#![tactic(auto)]

fn main(rt: HostRuntime) {
    text_run::run(&rt);
}
