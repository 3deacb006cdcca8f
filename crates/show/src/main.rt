// Shows what the terminal holds after session records, or after a host stream.
#![tactic(auto)]

fn main(rt: HostRuntime) {
    programs::show(&rt, rt.stdin(), rt.stdout(), rt.stderr());
}
