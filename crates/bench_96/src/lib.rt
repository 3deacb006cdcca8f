// What bench/ times, for C, in a memory of 96 rows: C cannot call a generic function.
#![tactic(auto)]

#[unsafe(no_mangle)]
pub extern "C" fn bench_host_96(
    chars: &mut [u8],
    attrs: &mut [u8],
    bytes: &[u8],
    reply: &mut [u8],
    changed: &mut [u64],
) -> usize {
    bench::run_host(96, chars, attrs, bytes, reply, changed)
}

#[unsafe(no_mangle)]
pub extern "C" fn bench_lines_96(
    chars: &mut [u8],
    attrs: &mut [u8],
    bytes: &[u8],
    reply: &mut [u8],
    changed: &mut [u64],
) -> u64 {
    bench::run_lines(96, chars, attrs, bytes, reply, changed)
}

#[unsafe(no_mangle)]
pub extern "C" fn bench_posts_96(
    chars: &mut [u8],
    attrs: &mut [u8],
    form: &[u8],
    reply: &mut [u8],
    changed: &mut [u64],
    field: usize,
    text: &[u8],
    times: usize,
) -> u8 {
    bench::run_posts(96, chars, attrs, form, reply, changed, field, text, times)
}

#[unsafe(no_mangle)]
pub extern "C" fn bench_keys_96(
    chars: &mut [u8],
    attrs: &mut [u8],
    form: &[u8],
    reply: &mut [u8],
    changed: &mut [u64],
    code: u16,
    other: u16,
    times: usize,
) -> u8 {
    bench::run_keys(96, chars, attrs, form, reply, changed, code, other, times)
}

#[unsafe(no_mangle)]
pub extern "C" fn bench_blocks_96(
    chars: &mut [u8],
    attrs: &mut [u8],
    form: &[u8],
    reply: &mut [u8],
    changed: &mut [u64],
    times: usize,
) -> usize {
    bench::run_blocks(96, chars, attrs, form, reply, changed, times)
}
