// Acceptance by a look at neighbours alone: where these hold, no point needs a test against every circle and every rim side. No public call.
ghost use Rattle.std.specs.Prelude.{◌≡◌, true, false, not, ◌&&◌, ◌||◌, ◌+◌, ◌*◌, ◌/◌, ◌<◌, ltb, pos, length, IfNone};
ghost use Rattle.std.specs.Int.Signed.{lt_z};
ghost use Rattle.sheet.specs.Plane as plane;
ghost use Rattle.sheet.specs.Office.{invaded};
ghost use Rattle.sheet.specs.Code.{Leaving};
ghost use Rattle.sheet.specs.Quick.{Cornering, Clear, Clears, AllClear, Foremost, SmoothFrom, AllSmooth};
ghost use Rattle.sheet.specs.Values.{at, office_of};

use crate::circles::holds;
use crate::plane::turn;
use crate::sides::{last_of, next_of};
use crate::spots::{Mesh, Plot, Spot};

impl<'a> Mesh<'a> {
    // Whether the circle of triangle a b c, of which side s runs from a to b, holds the third corner beyond s, asked at the lower side of a pair.
    // A mate that is none is the number of sides.
    fn is_held(&self, s: usize, area: i32, a: Spot, b: Spot, c: Spot) -> bool
        requires side { s < length self.now.plot.corners.now }
        requires cornering { Cornering (office_of self.now.plot) s area a.x a.y b.x b.y c.x c.y }
        ensures { (result ≡ false → Clear (office_of self.now.plot) s) × (result ≡ true → invaded (office_of self.now.plot) (s / 3) ≡ true) }
    {
        let r = usize::from(self.mate[s]);
        if (r <= s) | (self.plot.corners.len() <= r) {
            return false;
        }
        holds(area, a, b, c, self.plot.corner(last_of(r)))
    }

    // Whether the circle of triangle t holds the corner just beyond one of its sides.
    fn is_bad(&self, t: usize) -> bool
        requires { t < length self.now.plot.corners.now / 3 }
        ensures { (result ≡ false → Clears (office_of self.now.plot) t) × (result ≡ true → invaded (office_of self.now.plot) t ≡ true) }
    {
        let s = t * 3;
        let a = self.plot.corner(s);
        let b = self.plot.corner(s + 1);
        let c = self.plot.corner(s + 2);
        let area = turn(a, b, c);
        self.is_held(s, area, a, b, c)
            | self.is_held(s + 1, area, b, c, a)
            | self.is_held(s + 2, area, c, a, b)
    }

    // The first triangle whose circle holds the corner just beyond one of its sides, each pair of triangles asked at its lower one.
    pub(crate) fn first_bad(&self) -> Option<usize>
        ensures first { Foremost (office_of self.now.plot) result }
        ensures none { IfNone result (AllClear (office_of self.now.plot)) }
    {
        (0..self.plot.corners.len() / 3).find(|&t| self.is_bad(t))
    }
}

// Whether the way a b c turns right, or b has the lowest key of the three and is not the point that may.
fn is_wrong(a: Spot, b: Spot, c: Spot, lowest: bool) -> bool
    ensures { result ≡ (lt_z (plane.turn (at a) (at b) (at c)) (pos 0) || (ltb (b.x * 16384 + b.y) (a.x * 16384 + a.y) && ltb (b.x * 16384 + b.y) (c.x * 16384 + c.y) && not lowest)) }
{
    let before = a.key();
    let here = b.key();
    let behind = c.key();
    (turn(a, b, c) < 0) | ((here < before) & (here < behind) & !lowest)
}

impl<'a> Plot<'a> {
    // The point of the lowest key. What is proved of the tests below holds for any point.
    fn lowest_point(&self) -> usize {
        (0..self.xs.len())
            .min_by_key(|&p| self.point(p).key())
            .unwrap_or(0)
    }

    // Whether the rim goes from point p to where it ends, or the way along both sides is wrong.
    fn is_odd(&self, onward: &[u16; 1024], p: usize, lowest: usize) -> bool
        requires leaving { Leaving self.now.corners.now onward.now }
        requires point { p < length self.now.xs.now }
        ensures { result ≡ false → SmoothFrom (office_of self.now) lowest p }
    {
        let s = usize::from(onward[p]);
        if self.corners.len() <= s {
            return false;
        }
        let q = usize::from(self.corners[next_of(s)]);
        let r = usize::from(onward[q]);
        if self.corners.len() <= r {
            return true;
        }
        is_wrong(
            self.point(p),
            self.point(q),
            self.corner(next_of(r)),
            q == lowest,
        )
    }

    // Whether the rim never turns right, and goes round once, by the first rim side from each point.
    pub(crate) fn is_convex(&self, onward: &[u16; 1024]) -> bool
        requires { Leaving self.now.corners.now onward.now }
        ensures { result ≡ true → AllSmooth (office_of self.now) }
    {
        let lowest = self.lowest_point();
        !(0..self.xs.len()).any(|p| self.is_odd(onward, p, lowest))
    }
}
