// Layer 2, one peel on the rim: the marks and the tally before the first peel, a step, and the ring. Document 01, 'Peeling'.
// For the layers above: no public call, so a `requires` may stand. A mark is a byte of lent memory, 1 or 0, so it stays a number.
#![tactic(auto)]

pub mod answers;
pub mod keys;
pub mod office;
pub mod queue;
pub mod ring;
mod sides;
pub mod start;
pub mod step;

ghost use Rattle.std.specs.Prelude.{◌≡◌, ◌+◌, ◌<◌};

// The running tally: triangles peeled, twice the area of those kept, and the ring's length.
#[derive(Clone, Copy, Debug, PartialEq, Eq)]
pub struct Tally {
    pub peeled: u32,
    pub area: u32,
    pub ring: usize,
}

impl Tally {
    // Nothing is peeled yet.
    fn fresh(area: u32, ring: usize) -> Tally
        ensures { (result.peeled ≡ 0) × (result.area ≡ area) × (result.ring ≡ ring) }
    {
        Tally {
            peeled: 0,
            area,
            ring,
        }
    }

    // After one peel, with the new area and ring length.
    fn after_peel(self, area: u32, ring: usize) -> Tally
        requires { self.peeled < 2043 }
        ensures { (result.peeled ≡ self.peeled + 1) × (result.area ≡ area) × (result.ring ≡ ring) }
    {
        Tally {
            peeled: self.peeled + 1,
            area,
            ring,
        }
    }
}
