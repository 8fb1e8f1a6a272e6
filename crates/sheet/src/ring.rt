// Refusals 12 and 13: the rim is one ring, and no point lies strictly right of it. No public call.
ghost use Rattle.std.specs.Prelude.{◌≡◌, ◌&&◌, ◌<◌, ◌≤◌, eqb, length, get_or};
ghost use Rattle.laws.specs.First.{first, lowest, any, walk, stepped, once};
ghost use Rattle.sheet.specs.Office.{bare, rim, rims, start, after, one_ring, right, outer};
ghost use Rattle.sheet.specs.Code.{Numbered, Leaving};
ghost use Rattle.sheet.specs.Values.{office_of};

use crate::plane::turn;
use crate::sides::next_of;
use crate::spots::{Mates, Mesh};

// The corner at place s: 0 past the last, since the definitions of the rim say 0 for none.
fn corner_or_zero(corners: &[u16], s: usize) -> usize
    ensures { result ≡ get_or corners.now s 0 }
{
    usize::from(*corners.get(s).unwrap_or(&0))
}

// Where the rim goes on from p. The list of first sides comes with its fact as a clause: a struct of both would have to be one with the mesh or the
// mates beside it.
fn onward(corners: &[u16], list: &[u16; 1024], p: usize) -> usize
    requires { (length corners.now ≤ 6129) × (p < 1024) × Leaving corners.now list.now }
    ensures { result ≡ after (bare corners.now) p }
{
    corner_or_zero(corners, next_of(usize::from(list[p])))
}

impl<'a> Mates<'a> {
    // Whether side s is on the rim.
    pub fn is_rim(&self, s: usize) -> bool
        requires { s < length self.now.corners.now }
        ensures { result ≡ rim (bare self.now.corners.now) s }
    {
        self.corners.len() <= usize::from(self.mate[s])
    }

    // The number of rim sides.
    pub fn rim_length(&self) -> usize
        ensures { result ≡ rims (bare self.now.corners.now) }
    {
        let mut n = 0;
        for s in 0..self.corners.len() {
            n += usize::from(self.is_rim(s));
        }
        n
    }

    // The point where the first rim side starts; 0 where there is none, as the definition `start` has it.
    fn rim_start(&self) -> usize
        ensures { result ≡ start (bare self.now.corners.now) }
    {
        let sides = self.corners.len();
        let first = (0..sides).find(|&s| self.is_rim(s));
        corner_or_zero(self.corners, first.unwrap_or(sides))
    }

    // For each point the first rim side from it, or the number of sides, as in the table of mates.
    pub fn leaving(&self) -> [u16; 1024]
        requires { Numbered self.now.corners.now 1024 }
        ensures { Leaving self.now.corners.now result }
    {
        let mut list = [self.corners.len() as u16; 1024];
        for s in (0..self.corners.len()).rev() {
            if self.is_rim(s) {
                list[usize::from(self.corners[s])] = s as u16;
            }
        }
        list
    }

    // Whether going along the rim for `rim` steps visits as many points and comes back.
    fn goes_round(&self, list: &[u16; 1024], rim: usize) -> bool
        requires { Leaving self.now.corners.now list.now × Numbered self.now.corners.now 1024 }
        ensures { result ≡ (once (walk (after (bare self.now.corners.now)) (start (bare self.now.corners.now)) rim) && eqb (stepped (after (bare self.now.corners.now)) (start (bare self.now.corners.now)) rim) (start (bare self.now.corners.now))) }
    {
        let begun = self.rim_start();
        let mut seen = [false; 1024];
        let mut p = begun;
        for _ in 0..rim {
            if seen[p] {
                return false;
            }
            seen[p] = true;
            p = onward(self.corners, list, p);
        }
        p == begun
    }

    // Whether the rim sides, of which there are `rim`, are one ring with each point once.
    pub fn is_one_ring(&self, list: &[u16; 1024], rim: usize) -> bool
        requires leaving { Leaving self.now.corners.now list.now × Numbered self.now.corners.now 1024 }
        requires rim_value { rim ≡ rims (bare self.now.corners.now) }
        ensures { result ≡ one_ring (bare self.now.corners.now) }
    {
        (0 < rim) & self.goes_round(list, rim)
    }
}

impl<'a> Mesh<'a> {
    // Whether side s is on the rim, and point p lies strictly right of it.
    fn is_right(&self, p: usize, s: usize) -> bool
        requires { (p < length self.now.plot.xs.now) × (s < length self.now.plot.corners.now) }
        ensures { result ≡ right (office_of self.now.plot) p s }
    {
        if !self.mates().is_rim(s) {
            return false;
        }
        let a = self.plot.corner(s);
        let b = self.plot.corner(next_of(s));
        turn(a, b, self.plot.point(p)) < 0
    }

    fn is_outer(&self, p: usize) -> bool
        requires { p < length self.now.plot.xs.now }
        ensures { result ≡ outer (office_of self.now.plot) p }
    {
        (0..self.plot.corners.len()).any(|s| self.is_right(p, s))
    }

    // The lowest point strictly right of a rim side.
    pub fn first_outer(&self) -> Option<usize>
        ensures { result ≡ lowest (outer (office_of self.now.plot)) (length self.now.plot.xs.now) }
    {
        (0..self.plot.xs.len()).find(|&p| self.is_outer(p))
    }
}
