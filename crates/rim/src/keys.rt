// The order of sides in numbers, by which those that wait are compared. A coordinate has 14 bits and a squared length 30: packed by powers of two, a key
// is below 2^58. Here alone a number has 64 bits, and none of them is a product of two that vary.
// For this crate and the layer above: no public call, so a `requires` may stand.
ghost use Rattle.std.specs.Prelude.{◌≡◌, ◌*◌, ◌/◌, ◌<◌, ltb, length};
ghost use Rattle.sheet.specs.Office.{point, tail};
ghost use Rattle.rim.specs.Heap.{packed, rank};
ghost use Rattle.rim.specs.Heap as Heap;
ghost use Rattle.rim.specs.Values.{plan_of, Known};
ghost use Rattle.rim.specs.Peel as peeling;

use crate::office::Plan;
use sheet::sides::next_of;

// Greater for the side that goes first: the squared length, and behind it what the first end leaves of the grid.
pub type Key = u64;

// A side, by the place of its first corner, with its key.
#[derive(Clone, Copy, Debug, PartialEq, Eq)]
pub struct Keyed {
    pub side: u16,
    pub key: Key,
}

// The squared length in a key.
pub fn length_of(key: Key) -> u32
    requires { key < 1152921504606846976 }
    ensures { result ≡ key / 268435456 }
{
    (key / 268435456) as u32
}

impl<'a> Plan<'a> {
    // The point at place s, by x and then by y.
    fn spot_at(&self, s: usize) -> u32
        requires { s < length self.now.corners.now }
        ensures { (result ≡ packed (point (plan_of self.now) (tail (plan_of self.now) s))) × (result < 268435456) }
    {
        self.corner(s).key()
    }

    // The key of side s.
    pub fn key_of(&self, s: usize) -> Key
        requires { s < length self.now.corners.now }
        ensures { result ≡ Heap.key (plan_of self.now) s }
    {
        let long = self.side_squared(s);
        let first = self.spot_at(s).min(self.spot_at(next_of(s)));
        u64::from(long) * 268435456 + u64::from(268435455 - first)
    }

    pub(crate) fn keyed(&self, side: u16) -> Keyed
        requires { side < length self.now.corners.now }
        ensures { (result.side ≡ side) × (result.key ≡ Heap.key (plan_of self.now) side) }
    {
        let key = self.key_of(usize::from(side));
        Keyed { side, key }
    }

    // The second end of side s.
    fn second_of(&self, s: usize) -> u32
        requires { s < length self.now.corners.now }
        ensures { result ≡ packed (point (plan_of self.now) (peeling.second_end (plan_of self.now) s)) }
    {
        self.spot_at(s).max(self.spot_at(next_of(s)))
    }

    // Of sides s and r of one key, whether s goes before r: by the second end.
    pub fn second_before(&self, s: u16, r: u16) -> bool
        requires { (s < length self.now.corners.now) × (r < length self.now.corners.now) }
        ensures { result ≡ ltb (packed (point (plan_of self.now) (peeling.second_end (plan_of self.now) s))) (packed (point (plan_of self.now) (peeling.second_end (plan_of self.now) r))) }
    {
        self.second_of(usize::from(s)) < self.second_of(usize::from(r))
    }

    // Whether one side goes before another. No derived order: the second ends are looked up in the office, and only where the keys are equal.
    pub(crate) fn outranks(&self, one: Keyed, other: Keyed) -> bool
        requires { Known (plan_of self.now) one × Known (plan_of self.now) other }
        ensures { result ≡ ltb (rank (plan_of self.now) other.side) (rank (plan_of self.now) one.side) }
    {
        if other.key != one.key {
            return other.key < one.key;
        }
        self.second_before(one.side, other.side)
    }
}
