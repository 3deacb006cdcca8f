// Runs the session records of the files named, or of standard input, on a fresh terminal, and prints the answer to each. The test runs it on all examples, with a name
// among them that no file has.
#![tactic(auto)]

fn main(rt: HostRuntime) {
    programs::session(&rt, rt.stdin(), rt.stdout(), rt.stderr());
}
