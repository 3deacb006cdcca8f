// The program `show` with the words `48 raw`, run on files. A crate is run on one list of words, so each list has its own.
#![tactic(auto)]

fn main(rt: HostRuntime) {
    programs::show(&rt, rt.stdin(), rt.stdout(), rt.stderr());
}
