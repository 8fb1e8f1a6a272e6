// The marks and the tally before the first peel.
// For the layer above: no public call, so a `requires` may stand.
ghost use Rattle.std.specs.Prelude.{◌≡◌, ◌++◌, ◌/◌, ◌<◌, ◌≤◌, length, drop, replicate};
ghost use Rattle.sheet.specs.Office.{bare};
ghost use Rattle.sheet.specs.Code.{Numbered};
ghost use Rattle.rim.specs.Code.{front, State, ends_marked, Marked};
ghost use Rattle.rim.specs.Values.{plan_of, office_of};
ghost use Rattle.rim.specs.Peel as peeling;

use crate::Tally;
use crate::office::{Accepted, Plan, Sides, Taken};
use sheet::sides::next_of;

// The first n places of a list, all at once.
pub fn fill(list: &mut [u8], n: usize, v: u8)
    requires { n ≤ length list.old }
    ensures { list.new ≡ replicate n v ++ drop n list.old }
{
    list[..n].fill(v);
}

impl<'a> Plan<'a> {
    // Twice the area of all triangles.
    pub fn area_all(&self) -> u32
        ensures { result ≡ peeling.doubled (plan_of self.now) (peeling.whole (plan_of self.now)) }
    {
        let mut total: u32 = 0;
        for t in 0..self.corners.len() / 3 {
            total += self.area_of(t);
        }
        total
    }
}

impl<'a> Sides<'a> {
    // Marks both ends of side s where it is on the rim.
    pub fn mark_side(&self, kept: &[u8], rim: &mut [u8], s: usize)
        requires { (s < length self.now.corners.now) × (length self.now.corners.now / 3 ≤ length kept.now) × Numbered self.now.corners.now (length rim.old) }
        ensures { rim.new ≡ ends_marked self.now.corners.now s (peeling.rim (bare self.now.corners.now) (front self.now.corners.now kept.now) s) rim.old }
    {
        if self.is_rim(kept, s) {
            let p = usize::from(self.corners[s]);
            let q = usize::from(self.corners[next_of(s)]);
            rim[p] = 1;
            rim[q] = 1;
        }
    }

    // Marks the points on the rim, of as many as there are.
    pub fn mark_rim(&self, kept: &[u8], rim: &mut [u8], points: usize)
        requires { (length self.now.corners.now / 3 ≤ length kept.now) × (points ≤ length rim.old) × Numbered self.now.corners.now points }
        ensures { Marked self.now.corners.now (front self.now.corners.now kept.now) points rim.old rim.new }
    {
        fill(rim, points, 0);
        for s in 0..self.corners.len() {
            self.mark_side(kept, rim, s);
        }
    }
}

impl<'a> Taken<'a> {
    // The state before the first peel. A mark is the byte 1 or 0, as document 01 lends it.
    pub fn begin(&self, kept: &mut [u8], rim: &mut [u8]) -> Tally
        requires { (length self.now.sheet.corners.now / 3 ≤ length kept.old) × (length self.now.sheet.xs.now ≤ length rim.old) }
        ensures state { State (office_of self.now.sheet) self.now.sheet.mate.now kept.new rim.new result.peeled result.area result.ring × (result.peeled ≡ 0) }
        ensures rest_unchanged { (drop (length self.now.sheet.corners.now / 3) kept.new ≡ drop (length self.now.sheet.corners.now / 3) kept.old) × (drop (length self.now.sheet.xs.now) rim.new ≡ drop (length self.now.sheet.xs.now) rim.old) }
    {
        let Accepted {
            xs,
            ys,
            corners,
            mate,
        } = self.sheet;
        let plan = Plan { xs, ys, corners };
        let sides = Sides { corners, mate };
        fill(kept, corners.len() / 3, 1);
        sides.mark_rim(kept, rim, xs.len());
        let area = plan.area_all();
        Tally::fresh(area, self.hull)
    }
}
