// The exports of `port`: each calls the function of its name there, and is what a program in another language links.
#![tactic(auto)]

#[unsafe(no_mangle)]
pub extern "C" fn port_check(xs: &[u16], ys: &[u16], corners: &[u16], answer: &mut [u64; 4]) {
    port::port_check(xs, ys, corners, answer)
}

#[unsafe(no_mangle)]
pub extern "C" fn port_draw(
    xs: &[u16],
    ys: &[u16],
    corners: &[u16],
    limit: u32,
    kept: &mut [u8],
    rim: &mut [u8],
    ring: &mut [u16],
    answer: &mut [u64; 4],
) {
    port::port_draw(xs, ys, corners, limit, kept, rim, ring, answer)
}

#[unsafe(no_mangle)]
pub extern "C" fn port_outline(ring: &[u16], claimed: usize, place: usize, answer: &mut [u64; 4]) {
    port::port_outline(ring, claimed, place, answer)
}

#[unsafe(no_mangle)]
pub extern "C" fn port_list(
    xs: &[u16],
    ys: &[u16],
    corners: &[u16],
    kept: &mut [u8],
    rim: &mut [u8],
    ring: &mut [u16],
    least: &mut [u32],
    peeled: &mut [u32],
    area: &mut [u32],
    answer: &mut [u64; 4],
) {
    port::port_list(
        xs, ys, corners, kept, rim, ring, least, peeled, area, answer,
    )
}

#[unsafe(no_mangle)]
pub extern "C" fn port_write(xs: &[u16], ys: &[u16], out: &mut [u8], answer: &mut [u64; 4]) {
    port::port_write(xs, ys, out, answer)
}

#[unsafe(no_mangle)]
pub extern "C" fn port_read(block: &[u8], xs: &mut [u16], ys: &mut [u16], answer: &mut [u64; 4]) {
    port::port_read(block, xs, ys, answer)
}

#[unsafe(no_mangle)]
pub extern "C" fn port_judge(
    block: &[u8],
    order: u8,
    place: usize,
    answer: &mut [u64; 4],
    value: &mut f64,
) {
    port::port_judge(block, order, place, answer, value)
}

#[unsafe(no_mangle)]
pub extern "C" fn port_read_points(
    block: &[u8],
    xs: &mut [u16],
    ys: &mut [u16],
    answer: &mut [u64; 4],
) {
    port::port_read_points(block, xs, ys, answer)
}

#[unsafe(no_mangle)]
pub extern "C" fn port_sent(block: &[u8], place: usize, answer: &mut [u64; 4], value: &mut f64) {
    port::port_sent(block, place, answer, value)
}

#[unsafe(no_mangle)]
pub extern "C" fn port_write_district(
    xs: &[u16],
    ys: &[u16],
    lengths: &[u16],
    out: &mut [u8],
    answer: &mut [u64; 4],
) {
    port::port_write_district(xs, ys, lengths, out, answer)
}

#[unsafe(no_mangle)]
pub extern "C" fn port_read_district(
    block: &[u8],
    xs: &mut [u16],
    ys: &mut [u16],
    lengths: &mut [u16],
    answer: &mut [u64; 4],
) {
    port::port_read_district(block, xs, ys, lengths, answer)
}
