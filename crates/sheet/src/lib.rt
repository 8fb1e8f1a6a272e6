// Layer 1, the check: is this a Delaunay triangulation of these points? Document 01, 'What makes a triangulation acceptable'.
// Points go by their x and y lists, triangles by a flat list of three point numbers each. A table made here has a fixed length, since there is no
// heap; how much of it is used, the lent lists' lengths say.
#![tactic(auto)]

pub mod circles;
pub mod plane;
pub mod points;
mod quick;
mod refusal;
pub mod ring;
pub mod sides;
pub mod spots;
pub mod triangles;

ghost use Rattle.std.specs.Prelude.{◌≡◌, true, length, ◌%◌, ◌≤◌};
ghost use Rattle.sheet.specs.Office.{office};
ghost use Rattle.sheet.specs.Verdict.{verdict, points_verdict, areas_verdict, sides_verdict, rim_verdict};
ghost use Rattle.sheet.specs.Acceptable.{Left, Single, Used};
ghost use Rattle.sheet.specs.Answer.{answer, handed, Ready};
ghost use Rattle.sheet.specs.Values.{office_of};

use circles::first_invaded;
pub use refusal::{Refusal, Rule};
use sides::{NONE, chain_sides, pair_sides};
use spots::{Chain, Cloud, Mesh, Plot};
use triangles::{first_no_point, first_unused};

// Accepts exactly the acceptable offices, for all lists that can be lent.
pub fn check(xs: &[u16], ys: &[u16], corners: &[u16]) -> Result<usize, Refusal>
    ensures { answer result ≡ verdict true (office xs.now ys.now corners.now) }
{
    check_lent(xs, ys, corners, true)
}

// The same for a layer above that lends buffers: `room` says whether they are long enough, and refusal 4 has its place in the order.
pub fn check_lent(xs: &[u16], ys: &[u16], corners: &[u16], room: bool) -> Result<usize, Refusal>
    ensures { answer result ≡ verdict room (office xs.now ys.now corners.now) }
{
    let mut made = [0u16; 6129];
    check_sizes(xs, ys, corners, room, &mut made)
}

// The same, and for a layer that goes on from there a table of each side's mate, or the number of sides for a rim side, with 0 behind.
// Where the office is refused, the table is not touched.
pub fn check_mates(
    xs: &[u16],
    ys: &[u16],
    corners: &[u16],
    room: bool,
    mate: &mut [u16; 6129],
) -> Result<usize, Refusal>
    ensures result_value { answer result ≡ verdict room (office xs.now ys.now corners.now) }
    ensures mate_after { mate.new ≡ handed (answer result) corners.now mate.old }
{
    let mut made = [0u16; 6129];
    let hull = check_sizes(xs, ys, corners, room, &mut made)?;
    *mate = made;
    Ok(hull)
}

// All refusals. Where the office is accepted, `mate` begins with its table of mates.
fn check_sizes(
    xs: &[u16],
    ys: &[u16],
    corners: &[u16],
    room: bool,
    mate: &mut [u16; 6129],
) -> Result<usize, Refusal>
    ensures result_value { answer result ≡ verdict room (office xs.now ys.now corners.now) }
    ensures ready { Ready (answer result) corners.now mate.old mate.new }
{
    if xs.len() != ys.len() {
        return Err(Rule::UnequalLists.at(0));
    }
    if (xs.len() < 3) | (1024 < xs.len()) {
        return Err(Rule::PointCount.at(0));
    }
    if (corners.len() == 0) | (corners.len() % 3 != 0) | (6129 < corners.len()) {
        return Err(Rule::CornerCount.at(0));
    }
    if !room {
        return Err(Rule::ShortBuffer.at(0));
    }
    check_points(xs, ys, corners, mate)
}

// Refusals 5 to 7, and those after them.
fn check_points(
    xs: &[u16],
    ys: &[u16],
    corners: &[u16],
    mate: &mut [u16; 6129],
) -> Result<usize, Refusal>
    requires { (length xs.now ≡ length ys.now) × (3 ≤ length xs.now) × (length xs.now ≤ 1024) × (length corners.now % 3 ≡ 0) × (length corners.now ≤ 6129) }
    ensures result_value { answer result ≡ points_verdict (office xs.now ys.now corners.now) }
    ensures ready { Ready (answer result) corners.now mate.old mate.new }
{
    let cloud = Cloud { xs, ys };
    if let Some(point) = cloud.first_large() {
        return Err(Rule::LargeCoordinate.at(point));
    }
    if let Some(point) = cloud.first_again() {
        return Err(Rule::RepeatedPoint.at(point));
    }
    if let Some(place) = first_no_point(xs, corners) {
        return Err(Rule::NoPoint.at(place));
    }
    check_areas(&Plot { xs, ys, corners }, mate)
}

// Refusal 8, and those after it.
fn check_areas(plot: &Plot, mate: &mut [u16; 6129]) -> Result<usize, Refusal>
    ensures result_value { answer result ≡ areas_verdict (office_of plot.now) }
    ensures ready { Ready (answer result) plot.now.corners.now mate.old mate.new }
{
    if let Some(triangle) = plot.first_flat() {
        return Err(Rule::FlatTriangle.at(triangle));
    }
    check_sides(plot, mate)
}

// Refusals 9 and 10, and those after them.
fn check_sides(plot: &Plot, mate: &mut [u16; 6129]) -> Result<usize, Refusal>
    requires { Left (office_of plot.now) }
    ensures result_value { answer result ≡ sides_verdict (office_of plot.now) }
    ensures ready { Ready (answer result) plot.now.corners.now mate.old mate.new }
{
    let corners = plot.corners;
    let mut earlier = [NONE; 6129];
    let mut latest = [NONE; 1024];
    chain_sides(corners, &mut earlier, &mut latest);
    if !pair_sides(corners, &earlier, &latest, mate) {
        let earlier = &earlier;
        let triangle = Chain { corners, earlier }.first_double();
        return Err(Rule::RepeatedSide.at(triangle.unwrap()));
    }
    if let Some(point) = first_unused(corners, &latest, plot.xs.len()) {
        return Err(Rule::UnusedPoint.at(point));
    }
    check_rim(&Mesh { plot: *plot, mate })
}

// Refusals 11 to 13, and acceptance: at once where a look at neighbours is enough.
fn check_rim(mesh: &Mesh) -> Result<usize, Refusal>
    requires { Left (office_of mesh.now.plot) × Single (office_of mesh.now.plot) × Used (office_of mesh.now.plot) }
    ensures { answer result ≡ rim_verdict (office_of mesh.now.plot) }
{
    let mates = mesh.mates();
    let rim = mates.rim_length();
    let onward = mates.leaving();
    let one = mates.is_one_ring(&onward, rim);
    let convex = mesh.plot.is_convex(&onward);
    let bad = mesh.first_bad();
    if one & convex & bad.is_none() {
        return Ok(rim);
    }
    if let Some(triangle) = first_invaded(&mesh.plot, bad) {
        return Err(Rule::InvadedCircle.at(triangle));
    }
    if !one {
        return Err(Rule::BrokenRim.at(0));
    }
    if let Some(point) = mesh.first_outer() {
        return Err(Rule::OuterPoint.at(point));
    }
    Ok(rim)
}
