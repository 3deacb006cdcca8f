// The program `show` with the words `host raw`, run on the host stream of examples/painted, as standard input. A crate is run on one list of words, so each list has its own.
#![tactic(auto)]

fn main(rt: HostRuntime) {
    programs::show(&rt, rt.stdin(), rt.stdout(), rt.stderr());
}
