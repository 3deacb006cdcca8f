// The program `session` with the word `48`, run on all examples. A crate is run on one list of words, so each list has its own.
#![tactic(auto)]

fn main(rt: HostRuntime) {
    programs::session(&rt, rt.stdin(), rt.stdout(), rt.stderr());
}
