// Directed sides by the point that they start from, and their mates. For this crate and the layers above: no public call, so a
// `requires` may stand.
ghost use Rattle.std.specs.Prelude.{◌≡◌, true, false, cond, ◌&&◌, ℕ, ◌+◌, ◌%◌, ◌<◌, ◌≤◌, ltb, eqb, length, get_or, drop};
ghost use Rattle.laws.specs.First.{final};
ghost use Rattle.sheet.specs.Office.{bare, next, last};
ghost use Rattle.sheet.specs.Acceptable.{Single};
ghost use Rattle.sheet.specs.Code.{Numbered, starts, Chained, Mated, back_along, side_of, Noted, Placed, Righted};

use crate::spots::Chain;

// No side, and no point: an `Option<u16>` would take four bytes in place of two, in tables that the check makes anew at each call.
// A side's number is below 6,129, so a cast to `u16` loses nothing.
pub const NONE: u16 = 65535;

// The place of the corner after s in its triangle: by comparing, with no quotient. One function with a const parameter
// would have to choose between this line and the next function's, and be longer than both.
pub fn next_of(s: usize) -> usize
    requires { s < 65535 }
    ensures { result ≡ next s }
{
    if s % 3 == 2 { s - 2 } else { s + 1 }
}

// The place of the corner before s in its triangle.
pub fn last_of(s: usize) -> usize
    requires { s < 65535 }
    ensures { result ≡ last s }
{
    if s % 3 == 0 { s + 2 } else { s - 1 }
}

// What is asked of the corners alone is a clause here and below, since each function asks another part of it.
// For each side the latest earlier one from the same point, and for each point the latest side from it; 65,535 for none.
pub fn chain_sides(corners: &[u16], earlier: &mut [u16; 6129], latest: &mut [u16; 1024])
    requires { Numbered corners.now 1024 × (length corners.now ≤ 6129) }
    ensures { Chained corners.now earlier.new latest.new }
{
    *earlier = [NONE; 6129];
    *latest = [NONE; 1024];
    for s in 0..corners.len() {
        let p = usize::from(corners[s]);
        earlier[s] = latest[p];
        latest[p] = s as u16;
    }
}

// Whether side s starts at point p. A side comes as it stands in the tables, so 65,535 is none here too.
fn is_from(corners: &[u16], p: usize, s: usize) -> bool
    requires { s < 65535 → s < length corners.now }
    ensures { result ≡ (ltb s 65535 && eqb (get_or corners.now s 0) p) }
{
    if s < 65535 {
        let q = usize::from(corners[s]);
        return q == p;
    }
    false
}

// The mate of a side to point p that starts where side `noted` ends: that one where it starts at p, or the number of sides, which
// is none in the table of mates.
fn mate_noted(corners: &[u16], p: usize, noted: u16) -> u16
    requires { (noted < 65535 → noted < length corners.now) × (length corners.now ≤ 6129) }
    ensures { result ≡ cond (ltb noted 65535 && eqb (get_or corners.now noted 0) p) noted (length corners.now) }
{
    let back = is_from(corners, p, usize::from(noted));
    if back {
        return noted;
    }
    corners.len() as u16
}

impl<'a> Chain<'a> {
    // Of the sides from the point where side `begun` starts, up to that side, the latest that ends at `to`.
    pub fn run_back(&self, begun: usize, to: u16) -> Option<usize>
        requires { begun < 65535 → begun < length self.now.corners.now }
        ensures { result ≡ side_of (back_along self.now.corners.now to begun) }
    {
        let mut r = begun;
        while r < 65535 {
            if self.corners[next_of(r)] == to {
                return Some(r);
            }
            r = usize::from(self.earlier[r]);
        }
        None
    }

    // Notes each side from point p, of which `begun` is the latest, at the point where it ends: false where two end alike. A bool and no
    // `Result`: which side it is, a search finds after it, by document 01's order.
    fn note_ends(&self, noted: &mut [u16; 1024], p: usize, begun: usize) -> bool
        requires numbered { Numbered self.now.corners.now 1024 × (begun ≡ final 65535 (starts self.now.corners.now p) (length self.now.corners.now)) }
        requires noted_so_far { Noted self.now.corners.now p noted.old }
        ensures { (result ≡ true → Noted self.now.corners.now (p + 1) noted.new × Placed self.now.corners.now p noted.new) × (result ≡ false → Single (bare self.now.corners.now) → ⊥) }
    {
        let mut r = begun;
        while r < 65535 {
            let q = usize::from(self.corners[next_of(r)]);
            let old = usize::from(noted[q]);
            if is_from(self.corners, p, old) {
                return false;
            }
            noted[q] = r as u16;
            r = usize::from(self.earlier[r]);
        }
        true
    }

    // The mates of the sides to point p: each stands before a side from p in its triangle.
    fn note_mates(&self, noted: &[u16; 1024], mate: &mut [u16; 6129], p: usize, begun: usize)
        requires numbered { Numbered self.now.corners.now 1024 × (begun ≡ final 65535 (starts self.now.corners.now p) (length self.now.corners.now)) }
        requires noted_all { Noted self.now.corners.now (p + 1) noted.now × Placed self.now.corners.now p noted.now }
        ensures { Righted self.now.corners.now p mate.old mate.new }
    {
        let mut s = begun;
        while s < 65535 {
            let l = last_of(s);
            let q = usize::from(self.corners[l]);
            mate[l] = mate_noted(self.corners, p, noted[q]);
            s = usize::from(self.earlier[s]);
        }
    }
}

// For each side the one that runs back along it, or the number of sides, and behind them what stood there; false where a directed side
// occurs twice. A bool here too, for the same reason.
pub fn pair_sides(
    corners: &[u16],
    earlier: &[u16; 6129],
    latest: &[u16; 1024],
    mate: &mut [u16; 6129],
) -> bool
    requires { (length corners.now % 3 ≡ 0) × (length corners.now ≤ 6129) × Numbered corners.now 1024 × Chained corners.now earlier.now latest.now }
    ensures { (result ≡ true → Single (bare corners.now) × Mated corners.now mate.new × (drop (length corners.now) mate.new ≡ drop (length corners.now) mate.old)) × (result ≡ false → Single (bare corners.now) → ⊥) }
{
    let chain = Chain { corners, earlier };
    let mut noted = [NONE; 1024];
    for p in 0..1024 {
        let begun = usize::from(latest[p]);
        if !chain.note_ends(&mut noted, p, begun) {
            return false;
        }
        chain.note_mates(&noted, mate, p, begun);
    }
    true
}

// The same table, where no directed side occurs twice.
pub fn mates(corners: &[u16]) -> [u16; 6129]
    requires { (length corners.now % 3 ≡ 0) × (length corners.now ≤ 6129) × Numbered corners.now 1024 × Single (bare corners.now) }
    ensures { Mated corners.now result }
{
    let mut earlier = [NONE; 6129];
    let mut latest = [NONE; 1024];
    chain_sides(corners, &mut earlier, &mut latest);
    let mut mate = [0u16; 6129];
    pair_sides(corners, &earlier, &latest, &mut mate);
    mate
}
