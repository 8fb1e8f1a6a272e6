// Refusal 11: a point strictly inside a triangle's circle. No public call.
// A cast within a formula widens, and loses nothing: a `From` for each factor would hide the formula.
ghost use Rattle.std.specs.Prelude.{◌≡◌, ◌+◌, ◌*◌, ◌/◌, ◌<◌, ◌≤◌, pos, nat_abs, ◌+ℤ◌, ◌-ℤ◌, ◌*ℤ◌, length, get_or, take};
ghost use Rattle.std.specs.Int.Signed.{lt_z};
ghost use Rattle.laws.specs.First.{lowest, table};
ghost use Rattle.sheet.specs.Plane.{spot, Small};
ghost use Rattle.sheet.specs.Plane as plane;
ghost use Rattle.sheet.specs.Office.{invaded};
ghost use Rattle.sheet.specs.Code.{height, raised, swept, Coefficients, linear};
ghost use Rattle.sheet.specs.Values.{at, office_of};
ghost use Rattle.sheet.specs.Quick.{Foremost};

use crate::plane::{dot, turn};
use crate::spots::{Plot, Spot};

// The in-circle value at (x, y) is across x + up y + rest - lift (x² + y²): the first four once a triangle, three products a point.
#[derive(Clone, Copy, Debug, PartialEq, Eq)]
pub struct Circle {
    pub across: i64,
    pub up: i64,
    pub rest: i64,
    pub lift: i64,
    pub ghost fits: { (nat_abs across ≤ 26383447523322) × (nat_abs up ≤ 26383447523322) × (nat_abs rest ≤ 864480041549168652) × (nat_abs lift ≤ 536805378) },
}

// a b c of at most 2 · 16,383² each, as weights: no sum is above 3 · (2 · 16,383²)².
fn weighted(a: i64, u: i64, b: i64, v: i64, c: i64, w: i64) -> i64
    requires a_bound { (nat_abs a ≤ 536805378) × (nat_abs b ≤ 536805378) × (nat_abs c ≤ 536805378) }
    requires u_bound { (nat_abs u ≤ 536805378) × (nat_abs v ≤ 536805378) × (nat_abs w ≤ 536805378) }
    ensures { result ≡ a *ℤ u +ℤ b *ℤ v +ℤ c *ℤ w }
{
    a * u + b * v + c * w
}

// Whether a u + b v is negative: no sum is above 2 · (2 · 16,383²)².
fn is_below(a: i32, u: i32, b: i32, v: i32) -> bool
    requires { (nat_abs a ≤ 536805378) × (nat_abs u ≤ 536805378) × (nat_abs b ≤ 536805378) × (nat_abs v ≤ 536805378) }
    ensures { result ≡ lt_z (a *ℤ u +ℤ b *ℤ v) (pos 0) }
{
    let sum = a as i64 * u as i64 + b as i64 * v as i64;
    sum < 0
}

// Whether d lies strictly inside the circle through a b c, whose doubled area is at hand: by the angles at c and at d over a b.
pub fn holds(area: i32, a: Spot, b: Spot, c: Spot, d: Spot) -> bool
    requires { area ≡ plane.turn (at a) (at b) (at c) }
    ensures { result ≡ lt_z (pos 0) (plane.circle (at a) (at b) (at c) (at d)) }
{
    is_below(dot(c, a, b), turn(d, b, a), area, dot(d, a, b))
}

fn gap(a: u16, b: u16) -> i64
    requires { (a ≤ 16383) × (b ≤ 16383) }
    ensures { (result ≡ pos b -ℤ pos a) × (nat_abs result ≤ 536805378) }
{
    b as i64 - a as i64
}

fn cross(a: Spot, b: Spot) -> i64
    ensures { (result ≡ swept (at a) (at b)) × (nat_abs result ≤ 536805378) }
{
    a.x as i64 * b.y as i64 - b.x as i64 * a.y as i64
}

// x² + y², at most 2 · 16,383².
fn height_of(x: u16, y: u16) -> u32
    requires { Small (spot x y) }
    ensures { (result ≡ x * x + y * y) × (result ≤ 536805378) }
{
    x as u32 * x as u32 + y as u32 * y as u32
}

// The same of a point of the grid, as a number with a sign: asked three times a circle.
fn lifted(a: Spot) -> i64
    ensures { (result ≡ raised (at a)) × (nat_abs result ≤ 536805378) }
{
    i64::from(height_of(a.x, a.y))
}

fn circle_through(a: Spot, b: Spot, c: Spot) -> Circle
    ensures { Coefficients (at a) (at b) (at c) result.across result.up result.rest result.lift }
{
    let (u, v, w) = (lifted(a), lifted(b), lifted(c));
    Circle {
        across: weighted(u, gap(c.y, b.y), v, gap(a.y, c.y), w, gap(b.y, a.y)),
        up: weighted(u, gap(b.x, c.x), v, gap(c.x, a.x), w, gap(a.x, b.x)),
        rest: weighted(u, cross(b, c), v, cross(c, a), w, cross(a, b)),
        lift: i64::from(turn(a, b, c)),
    }
}

// Whether a point lies strictly inside: no sum is above 28 · 16,383⁴.
fn is_inside(k: Circle, x: u16, y: u16, height: u32) -> bool
    requires { Small (spot x y) × (height ≤ 536805378) }
    ensures { result ≡ lt_z (pos 0) (linear k.across k.up k.rest k.lift x y height) }
{
    0 < k.across * (x as i64) + k.up * (y as i64) + k.rest - k.lift * (height as i64)
}

// x² + y² of each point.
fn heights(plot: &Plot) -> [u32; 1024]
    ensures { take (length plot.now.xs.now) result ≡ table (height plot.now.xs.now plot.now.ys.now) (length plot.now.xs.now) }
{
    let mut list = [0u32; 1024];
    for p in 0..plot.xs.len() {
        let spot = plot.point(p);
        list[p] = height_of(spot.x, spot.y);
    }
    list
}

// Whether point p lies strictly inside a circle.
fn is_within(plot: &Plot, heights: &[u32; 1024], circle: Circle, p: usize) -> bool
    requires point { p < length plot.now.xs.now }
    requires height { get_or heights.now p 0 ≤ 536805378 }
    ensures { result ≡ lt_z (pos 0) (linear circle.across circle.up circle.rest circle.lift (get_or plot.now.xs.now p 0) (get_or plot.now.ys.now p 0) (get_or heights.now p 0)) }
{
    is_inside(circle, plot.xs[p], plot.ys[p], heights[p])
}

// Whether a point lies strictly inside the circle of triangle t.
fn is_invaded(plot: &Plot, heights: &[u32; 1024], t: usize) -> bool
    requires triangle { t < length plot.now.corners.now / 3 }
    requires heights_value { take (length plot.now.xs.now) heights.now ≡ table (height plot.now.xs.now plot.now.ys.now) (length plot.now.xs.now) }
    ensures { result ≡ invaded (office_of plot.now) t }
{
    let s = t * 3;
    let circle = circle_through(plot.corner(s), plot.corner(s + 1), plot.corner(s + 2));
    (0..plot.xs.len()).any(|p| is_within(plot, heights, circle, p))
}

// The first such triangle. Where a look at neighbours has found one, `bad`, only those before it are asked.
pub fn first_invaded(plot: &Plot, bad: Option<usize>) -> Option<usize>
    requires { Foremost (office_of plot.now) bad }
    ensures { result ≡ lowest (invaded (office_of plot.now)) (length plot.now.corners.now / 3) }
{
    let heights = heights(plot);
    let end = bad.unwrap_or(plot.corners.len() / 3);
    (0..end).find(|&t| is_invaded(plot, &heights, t)).or(bad)
}
