// Refusals 7 to 10: each search finds the lowest place at which the rule breaks. No public call.
ghost use Rattle.std.specs.Prelude.{◌≡◌, ℕ, ◌/◌, ◌<◌, ◌≤◌, length, get_or};
ghost use Rattle.laws.specs.First.{lowest, final, any};
ghost use Rattle.sheet.specs.Office.{office, bare, no_point, flat, same_side, double, unused};
ghost use Rattle.sheet.specs.Code.{starts, Cornered};
ghost use Rattle.sheet.specs.Values.{office_of};

use crate::plane::turn;
use crate::sides::{NONE, next_of};
use crate::spots::{Chain, Plot};

pub fn first_no_point(xs: &[u16], corners: &[u16]) -> Option<usize>
    ensures { result ≡ lowest (no_point (office xs.now xs.now corners.now)) (length corners.now) }
{
    corners.iter().position(|&p| xs.len() <= usize::from(p))
}

impl<'a> Plot<'a> {
    // Whether triangle t has no area, or runs clockwise.
    fn is_flat(&self, t: usize) -> bool
        requires { t < length self.now.corners.now / 3 }
        ensures { result ≡ flat (office_of self.now) t }
    {
        let s = t * 3;
        turn(self.corner(s), self.corner(s + 1), self.corner(s + 2)) <= 0
    }

    pub fn first_flat(&self) -> Option<usize>
        ensures { result ≡ lowest (flat (office_of self.now)) (length self.now.corners.now / 3) }
    {
        (0..self.corners.len() / 3).find(|&t| self.is_flat(t))
    }
}

impl<'a> Chain<'a> {
    // Whether an earlier side runs as side s does.
    fn is_repeated(&self, s: usize) -> bool
        requires { s < length self.now.corners.now }
        ensures { result ≡ any (same_side (bare self.now.corners.now) s) s }
    {
        let begun = usize::from(self.earlier[s]);
        self.run_back(begun, self.corners[next_of(s)]).is_some()
    }

    // Whether a side of triangle t also stands in an earlier triangle.
    fn is_double(&self, t: usize) -> bool
        requires { (t < length self.now.corners.now / 3) × Cornered self.now.corners.now }
        ensures { result ≡ double (bare self.now.corners.now) t }
    {
        let s = t * 3;
        self.is_repeated(s) | self.is_repeated(s + 1) | self.is_repeated(s + 2)
    }

    pub fn first_double(&self) -> Option<usize>
        requires { Cornered self.now.corners.now }
        ensures { result ≡ lowest (double (bare self.now.corners.now)) (length self.now.corners.now / 3) }
    {
        (0..self.corners.len() / 3).find(|&t| self.is_double(t))
    }
}

// The lowest of so many points from which no side starts.
pub fn first_unused(corners: &[u16], latest: &[u16; 1024], points: usize) -> Option<usize>
    requires corners_len_bound { (length corners.now ≤ 6129) × (points ≤ 1024) }
    requires by_index { (q : ℕ) → q < 1024 → get_or latest.now q 0 ≡ final 65535 (starts corners.now q) (length corners.now) }
    ensures { result ≡ lowest (unused (bare corners.now)) points }
{
    latest[..points].iter().position(|&side| side == NONE)
}
