// The ring of an outline.
// For the layer above: no public call, so a `requires` may stand.
ghost use Rattle.std.specs.Prelude.{◌≡◌, ◌++◌, ◌/◌, ◌<◌, ◌≤◌, eqb, length, get_or, drop};
ghost use Rattle.std.proofs.lemmas.List.Edits.{sets};
ghost use Rattle.laws.specs.First.{first, walk};
ghost use Rattle.sheet.specs.Office.{bare};
ghost use Rattle.sheet.specs.Code.{Numbered};
ghost use Rattle.rim.specs.Code.{front, State, Ringlike, Linked, Leaves};
ghost use Rattle.rim.specs.Values.{office_of};
ghost use Rattle.rim.specs.Peel as peeling;

use crate::Tally;
use crate::office::{Accepted, Sides};
use sheet::sides::next_of;

pub fn is_marked(rim: &[u8], p: usize) -> bool
    requires { p < length rim.now }
    ensures { result ≡ eqb (get_or rim.now p 0) 1 }
{
    rim[p] == 1
}

// The lowest of so many points that is marked, or their number: so the definition of the ring has it.
pub fn lowest_marked(rim: &[u8], points: usize) -> usize
    requires { points ≤ length rim.now }
    ensures { result ≡ first (λ p. eqb (get_or rim.now p 0) 1) points }
{
    (0..points).find(|p| is_marked(rim, *p)).unwrap_or(points)
}

impl<'a> Sides<'a> {
    // For each point on the rim the one that the rim goes on to.
    pub fn links(&self, kept: &[u8]) -> [u16; 1024]
        requires { (length self.now.corners.now / 3 ≤ length kept.now) × Numbered self.now.corners.now 1024 × Ringlike self.now.corners.now (front self.now.corners.now kept.now) }
        ensures { Linked self.now.corners.now (front self.now.corners.now kept.now) result (length self.now.corners.now) }
    {
        let mut link = [0u16; 1024];
        for s in 0..self.corners.len() {
            if self.is_rim(kept, s) {
                let p = usize::from(self.corners[s]);
                link[p] = self.corners[next_of(s)];
            }
        }
        link
    }
}

// Writes so many points, from one on along the links.
pub fn write_ring(
    corners: &[u16],
    kept: &[u8],
    link: &[u16; 1024],
    from: u16,
    count: usize,
    ring: &mut [u16],
)
    requires numbered { Numbered corners.now 1024 × Ringlike corners.now (front corners.now kept.now) }
    requires linked { Linked corners.now (front corners.now kept.now) link.now (length corners.now) }
    requires leaves { Leaves corners.now (front corners.now kept.now) from × (count ≤ length ring.old) }
    ensures { ring.new ≡ sets ring.old 0 (walk (peeling.after (bare corners.now) (front corners.now kept.now)) from count) }
{
    let part = &mut ring[..count];
    let mut p = from;
    for place in part.iter_mut() {
        *place = p;
        p = link[usize::from(p)];
    }
}

impl<'a> Accepted<'a> {
    // The outline of marks on the way, from the lowest point on the rim.
    pub fn lay_ring(&self, kept: &[u8], rim: &[u8], tally: Tally, ring: &mut [u16])
        requires { State (office_of self.now) self.now.mate.now kept.now rim.now tally.peeled tally.area tally.ring × (length self.now.xs.now ≤ length ring.old) }
        ensures { ring.new ≡ peeling.ring (office_of self.now) (front self.now.corners.now kept.now) ++ drop tally.ring ring.old }
    {
        let sides = Sides {
            corners: self.corners,
            mate: self.mate,
        };
        let low = lowest_marked(rim, self.xs.len());
        let link = sides.links(kept);
        write_ring(self.corners, kept, &link, low as u16, tally.ring, ring);
    }
}
