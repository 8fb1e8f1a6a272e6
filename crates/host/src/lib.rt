// The console's C function, over all three layers. Document 01, 'Polygon bytes', last paragraph.
#![tactic(auto)]

mod blocks;
mod rings;

ghost use Rattle.std.specs.Prelude.{◌≡◌, true, ◌≤◌, length};
ghost use Rattle.sheet.specs.Office.{office};
ghost use Rattle.sheet.specs.Verdict.{verdict};
ghost use Rattle.shape.specs.Answers.{reply};
ghost use Rattle.host.specs.Polygon.{code, draws, after_polygon};

use sheet::{Refusal, Rule};

// Draws the outline of an office at a limit and writes it as a polygon at the front of the output. Points are two bytes x and two bytes y,
// low first, triangles three times two bytes. Answers the bytes written, or minus the refusal number; a refusal writes nothing.
#[tactic(auto, using(crate::proofs::Rounds::small))]
pub fn outline_polygon(points: &[u8], triangles: &[u8], limit: u32, out: &mut [u8]) -> i64
    ensures value { result ≡ code (after_polygon points.now triangles.now limit out.old).answer }
    ensures out_after { out.new ≡ (after_polygon points.now triangles.now limit out.old).out }
{
    match polygon(points, triangles, limit, out) {
        Ok(bytes) => bytes as i64,
        Err(refusal) => -i64::from(refusal.rule.number()),
    }
}

// The polygon of two blocks.
#[tactic(auto, using(shape::proofs::Asking::refuses), unfolding(crate::specs::Polygon::after_polygon))]
fn polygon(points: &[u8], triangles: &[u8], limit: u32, out: &mut [u8]) -> Result<usize, Refusal>
    ensures result_value { reply result ≡ (after_polygon points.now triangles.now limit out.old).answer }
    ensures out_after { out.new ≡ (after_polygon points.now triangles.now limit out.old).out }
{
    if points.len() % 4 != 0 {
        return Err(Rule::UnequalLists.at(0));
    }
    let n = points.len() / 4;
    if (n < 3) | (1024 < n) {
        return Err(Rule::PointCount.at(0));
    }
    let bytes = triangles.len();
    if (bytes == 0) | (bytes % 6 != 0) | (12258 < bytes) {
        return Err(Rule::CornerCount.at(0));
    }
    let mut across = [0u16; 1024];
    let mut up = [0u16; 1024];
    let mut sides = [0u16; 6129];
    let xs = blocks::decode(points, 0, 4, &mut across);
    let ys = blocks::decode(points, 2, 4, &mut up);
    let corners = blocks::decode(triangles, 0, 2, &mut sides);
    polygon_of(xs, ys, corners, limit, out)
}

// The polygon of an office whose lists are in their ranges.
fn polygon_of(
    xs: &[u16],
    ys: &[u16],
    corners: &[u16],
    limit: u32,
    out: &mut [u8],
) -> Result<usize, Refusal>
    requires { (length xs.now ≤ 1024) × (length corners.now ≤ 6129) }
    ensures result_value { reply result ≡ (draws (office xs.now ys.now corners.now) limit out.old (verdict true (office xs.now ys.now corners.now))).answer }
    ensures out_after { out.new ≡ (draws (office xs.now ys.now corners.now) limit out.old (verdict true (office xs.now ys.now corners.now))).out }
{
    let mut kept = [0u8; 2043];
    let mut rim = [0u8; 1024];
    let mut ring = [0u16; 1024];
    let tally = peel::draw(xs, ys, corners, limit, &mut kept, &mut rim, &mut ring)?;
    rings::write_ring(xs, ys, peel::outline(&ring, tally), out)
}
