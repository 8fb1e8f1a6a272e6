// An office that the check accepts, with its mates and the length of its rim, as the check hands them on. For this crate and the layer above.
// A struct holds what its functions ask and no more, since from outside they may be called alone. Nobody compares lent lists, so these structs
// derive Clone and Copy alone.
ghost use Rattle.std.specs.Prelude.{◌≡◌, ◌%◌, ◌≤◌, length, take};
ghost use Rattle.laws.specs.First.{table};
ghost use Rattle.sheet.specs.Office.{office, bare, mate_of, rims};
ghost use Rattle.sheet.specs.Acceptable.{Single, Acceptable};

use sheet::{Refusal, check_mates};

// The points' coordinates, and three corners a triangle.
#[derive(Clone, Copy)]
pub struct Plan<'a> {
    pub xs: &'a [u16],
    pub ys: &'a [u16],
    pub corners: &'a [u16],
    pub ghost acceptable: { ∥ Acceptable (office xs.now ys.now corners.now) ∥₁ },
}

// The sides of triangles, none of them twice, and for each side the one that runs back along it.
#[derive(Clone, Copy)]
pub struct Sides<'a> {
    pub corners: &'a [u16],
    pub mate: &'a [u16; 6129],
    pub ghost single: { Single (bare corners.now) },
    pub ghost whole: { length corners.now % 3 ≡ 0 },
    pub ghost short: { length corners.now ≤ 6129 },
    pub ghost mates: { take (length corners.now) mate.now ≡ table (mate_of corners.now) (length corners.now) },
}

// Both at once: the points' coordinates, three corners a triangle, and for each side the one that runs back along it.
#[derive(Clone, Copy)]
pub struct Accepted<'a> {
    pub xs: &'a [u16],
    pub ys: &'a [u16],
    pub corners: &'a [u16],
    pub mate: &'a [u16; 6129],
    pub ghost acceptable: { ∥ Acceptable (office xs.now ys.now corners.now) ∥₁ },
    pub ghost mates: { take (length corners.now) mate.now ≡ table (mate_of corners.now) (length corners.now) },
}

// The same, and how many sides the rim has: what is asked before the first peel alone.
#[derive(Clone, Copy)]
pub struct Taken<'a> {
    pub sheet: Accepted<'a>,
    pub hull: usize,
    pub ghost hull_is: { hull ≡ rims (office sheet.xs.now sheet.ys.now sheet.corners.now) },
}

impl<'a> Taken<'a> {
    ghost use Rattle.sheet.specs.Verdict.{verdict};
    ghost use Rattle.rim.specs.Accepting.{told_hull, Takes};

    // Checks an office, and takes it where it is accepted. `mate` is lent for the table of mates.
    pub fn check(
        xs: &'a [u16],
        ys: &'a [u16],
        corners: &'a [u16],
        room: bool,
        mate: &'a mut [u16; 6129],
    ) -> Result<Taken<'a>, Refusal>
        ensures result_value { told_hull result ≡ verdict room (office xs.now ys.now corners.now) }
        ensures lists { Takes xs.now ys.now corners.now result }
    {
        let hull = check_mates(xs, ys, corners, room, mate)?;
        let sheet = Accepted {
            xs,
            ys,
            corners,
            mate,
        };
        Ok(Taken { sheet, hull })
    }
}
