// What bench/ times, for C, in a memory of 48 rows: C cannot call a generic function.
#![tactic(auto)]

#[unsafe(no_mangle)]
pub extern "C" fn bench_host_48(
    chars: &mut [u8],
    attrs: &mut [u8],
    bytes: &[u8],
    reply: &mut [u8],
    changed: &mut [u64],
) -> usize {
    bench::run_host(48, chars, attrs, bytes, reply, changed)
}

#[unsafe(no_mangle)]
pub extern "C" fn bench_lines_48(
    chars: &mut [u8],
    attrs: &mut [u8],
    bytes: &[u8],
    reply: &mut [u8],
    changed: &mut [u64],
) -> u64 {
    bench::run_lines(48, chars, attrs, bytes, reply, changed)
}

#[unsafe(no_mangle)]
pub extern "C" fn bench_posts_48(
    chars: &mut [u8],
    attrs: &mut [u8],
    form: &[u8],
    reply: &mut [u8],
    changed: &mut [u64],
    field: usize,
    text: &[u8],
    times: usize,
) -> u8 {
    bench::run_posts(48, chars, attrs, form, reply, changed, field, text, times)
}

#[unsafe(no_mangle)]
pub extern "C" fn bench_keys_48(
    chars: &mut [u8],
    attrs: &mut [u8],
    form: &[u8],
    reply: &mut [u8],
    changed: &mut [u64],
    code: u16,
    other: u16,
    times: usize,
) -> u8 {
    bench::run_keys(48, chars, attrs, form, reply, changed, code, other, times)
}

#[unsafe(no_mangle)]
pub extern "C" fn bench_blocks_48(
    chars: &mut [u8],
    attrs: &mut [u8],
    form: &[u8],
    reply: &mut [u8],
    changed: &mut [u64],
    times: usize,
) -> usize {
    bench::run_blocks(48, chars, attrs, form, reply, changed, times)
}
