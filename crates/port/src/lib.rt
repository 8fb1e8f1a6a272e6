// One thin function for each public call, for programs in other languages that compare or measure the library. Lent memory is passed on as it
// is. Answers go into four lent numbers, since C takes no `Result`: 0 and the values, or 1, the refusal's number and its place.
#![tactic(auto)]

use exchange::Coordinate;
use peel::Tally;
use sheet::Refusal;

fn refused(refusal: Refusal) -> [u64; 4] {
    let number = u64::from(refusal.rule.number());
    [1, number, refusal.place as u64, 0]
}

// A count or a refusal.
fn counted(answer: Result<usize, Refusal>) -> [u64; 4] {
    answer.map_or_else(refused, |count| [0, count as u64, 0, 0])
}

// Triangles peeled, doubled area and ring length, or a refusal.
fn drawn(answer: Result<Tally, Refusal>) -> [u64; 4] {
    answer.map_or_else(refused, |tally| {
        let peeled = u64::from(tally.peeled);
        [0, peeled, u64::from(tally.area), tally.ring as u64]
    })
}

pub fn port_check(xs: &[u16], ys: &[u16], corners: &[u16], answer: &mut [u64; 4]) {
    *answer = counted(sheet::check(xs, ys, corners));
}

pub fn port_draw(
    xs: &[u16],
    ys: &[u16],
    corners: &[u16],
    limit: u32,
    kept: &mut [u8],
    rim: &mut [u8],
    ring: &mut [u16],
    answer: &mut [u64; 4],
) {
    *answer = drawn(peel::draw(xs, ys, corners, limit, kept, rim, ring));
}

// The length of the used part, and its number at a place where it has that place.
pub fn port_outline(ring: &[u16], claimed: usize, place: usize, answer: &mut [u64; 4]) {
    let tally = Tally {
        peeled: 0,
        area: 0,
        ring: claimed,
    };
    let part = peel::outline(ring, tally);
    answer[0] = part.len() as u64;
    if let Some(number) = part.get(place) {
        answer[1] = u64::from(*number);
    }
}

pub fn port_list(
    xs: &[u16],
    ys: &[u16],
    corners: &[u16],
    kept: &mut [u8],
    rim: &mut [u8],
    ring: &mut [u16],
    least: &mut [u32],
    peeled: &mut [u32],
    area: &mut [u32],
    answer: &mut [u64; 4],
) {
    *answer = counted(peel::list(xs, ys, corners, kept, rim, ring, least, peeled, area));
}

pub fn port_write(xs: &[u16], ys: &[u16], out: &mut [u8], answer: &mut [u64; 4]) {
    *answer = counted(exchange::write(xs, ys, out));
}

pub fn port_read(block: &[u8], xs: &mut [u16], ys: &mut [u16], answer: &mut [u64; 4]) {
    *answer = counted(exchange::read(block, xs, ys));
}

// Besides a refusal: 0 with a grid number, 2 with the value off the grid, 3 for what is not finite.
fn judged(found: Result<Coordinate, Refusal>, answer: &mut [u64; 4], value: &mut f64) {
    match found {
        Ok(Coordinate::Grid(number)) => *answer = [0, u64::from(number), 0, 0],
        Ok(Coordinate::OffGrid(read)) => {
            *answer = [2, 0, 0, 0];
            *value = read;
        }
        Ok(Coordinate::NotFinite) => *answer = [3, 0, 0, 0],
        Err(refusal) => *answer = refused(refusal),
    }
}

pub fn port_judge(block: &[u8], order: u8, place: usize, answer: &mut [u64; 4], value: &mut f64) {
    judged(exchange::judge(block, order, place), answer, value);
}

pub fn port_read_points(block: &[u8], xs: &mut [u16], ys: &mut [u16], answer: &mut [u64; 4]) {
    *answer = counted(exchange::read_points(block, xs, ys));
}

pub fn port_sent(block: &[u8], place: usize, answer: &mut [u64; 4], value: &mut f64) {
    judged(exchange::sent(block, place), answer, value);
}

pub fn port_write_district(
    xs: &[u16],
    ys: &[u16],
    lengths: &[u16],
    out: &mut [u8],
    answer: &mut [u64; 4],
) {
    *answer = counted(exchange::write_district(xs, ys, lengths, out));
}

pub fn port_read_district(
    block: &[u8],
    xs: &mut [u16],
    ys: &mut [u16],
    lengths: &mut [u16],
    answer: &mut [u64; 4],
) {
    *answer = counted(exchange::read_district(block, xs, ys, lengths));
}
