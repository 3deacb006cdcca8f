// The program `session` with the words `48` and `plain`, run on all examples: it prints what it prints without `plain`. A crate is run on one list of words, so each list has its own.
#![tactic(auto)]

fn main(rt: HostRuntime) {
    programs::session(&rt, rt.stdin(), rt.stdout(), rt.stderr());
}
