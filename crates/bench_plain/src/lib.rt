// What bench/ times of the plain reader of host bytes, for C, in memories of 48 and of 96 rows: C cannot call a generic function.
#![tactic(auto)]

ghost use Rattle.std.specs.Prelude.{◌≤◌};

// A host stream from a fresh terminal, as `bench::run_host` has it; how many of its bytes are taken.
fn run_host(
    rows: usize,
    chars: &mut [u8],
    attrs: &mut [u8],
    bytes: &[u8],
    reply: &mut [u8],
    changed: &mut [u64],
) -> usize
    requires { (24 ≤ rows) × (rows ≤ 96) }
{
    let begun = terminal::fresh_on(rows, chars, attrs);
    let told = report::report_on(begun.state, rows);
    let answer = plain::host_on(told.state, rows, chars, attrs, bytes, reply);
    bench::tell(answer.state, changed);
    answer.taken
}

#[unsafe(no_mangle)]
pub extern "C" fn bench_decisions_48(
    chars: &mut [u8],
    attrs: &mut [u8],
    bytes: &[u8],
    reply: &mut [u8],
    changed: &mut [u64],
) -> usize {
    run_host(48, chars, attrs, bytes, reply, changed)
}

#[unsafe(no_mangle)]
pub extern "C" fn bench_decisions_96(
    chars: &mut [u8],
    attrs: &mut [u8],
    bytes: &[u8],
    reply: &mut [u8],
    changed: &mut [u64],
) -> usize {
    run_host(96, chars, attrs, bytes, reply, changed)
}
