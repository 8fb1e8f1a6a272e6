// Sides of triangles: their lengths, ends and areas, and which are on the rim.
// For this crate: no public call, so a `requires` may stand.
ghost use Rattle.std.specs.Prelude.{◌≡◌, ◌/◌, ◌<◌, ◌≤◌, length, get_or, nat_abs};
ghost use Rattle.sheet.specs.Office.{area, bare, tail};
ghost use Rattle.rim.specs.Code.{front};
ghost use Rattle.rim.specs.Values.{plan_of};
ghost use Rattle.rim.specs.Peel as peeling;

use crate::office::{Plan, Sides};
use sheet::plane::{at_corner, doubled, squared};
use sheet::sides::next_of;
use sheet::spots::Spot;

impl<'a> Plan<'a> {
    // The point of the corner at place s.
    pub(crate) fn corner(&self, s: usize) -> Spot
        requires { s < length self.now.corners.now }
        ensures { (result.x ≡ get_or self.now.xs.now (tail (plan_of self.now) s) 0) × (result.y ≡ get_or self.now.ys.now (tail (plan_of self.now) s) 0) }
    {
        Spot {
            x: at_corner(self.xs, self.corners, s),
            y: at_corner(self.ys, self.corners, s),
        }
    }

    // The squared length of side s.
    pub(crate) fn side_squared(&self, s: usize) -> u32
        requires { s < length self.now.corners.now }
        ensures { result ≡ peeling.long (plan_of self.now) s }
    {
        squared(self.corner(s), self.corner(next_of(s)))
    }

    // Twice the area of triangle t.
    pub(crate) fn area_of(&self, t: usize) -> u32
        requires { t < length self.now.corners.now / 3 }
        ensures { result ≡ nat_abs (area (plan_of self.now) t) }
    {
        let s = t * 3;
        doubled(self.corner(s), self.corner(s + 1), self.corner(s + 2))
    }
}

impl<'a> Sides<'a> {
    // Whether side s is on the rim: its triangle is kept, and its mate's is not.
    pub(crate) fn is_rim(&self, kept: &[u8], s: usize) -> bool
        requires { (s < length self.now.corners.now) × (length self.now.corners.now / 3 ≤ length kept.now) }
        ensures { result ≡ peeling.rim (bare self.now.corners.now) (front self.now.corners.now kept.now) s }
    {
        let m = usize::from(self.mate[s]);
        if m < self.corners.len() {
            return (kept[s / 3] == 1) & (kept[m / 3] != 1);
        }
        kept[s / 3] == 1
    }
}
