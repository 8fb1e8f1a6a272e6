// What the check's searches go over, each with what is known of it. A struct holds what its searches ask and no more, since from outside they may be
// called alone. The structs of lent lists derive Clone and Copy alone: nothing compares or prints them.
ghost use Rattle.std.specs.Prelude.{◌≡◌, ℕ, ◌+◌, ◌*◌, ◌%◌, ◌<◌, ◌≤◌, length, get_or};
ghost use Rattle.laws.specs.First.{final};
ghost use Rattle.sheet.specs.Plane.{spot, Small};
ghost use Rattle.sheet.specs.Office.{office};
ghost use Rattle.sheet.specs.Code.{Plotted, Mated, starts};

// A point of the grid.
#[derive(Clone, Copy, Debug, PartialEq, Eq)]
pub struct Spot {
    pub x: u16,
    pub y: u16,
    pub ghost small: { Small (spot x y) },
}

// Points by their x and y lists.
#[derive(Clone, Copy)]
pub struct Cloud<'a> {
    pub xs: &'a [u16],
    pub ys: &'a [u16],
    pub ghost paired: { length xs.now ≡ length ys.now },
}

// An office after the refusals 1 to 7.
#[derive(Clone, Copy)]
pub struct Plot<'a> {
    pub xs: &'a [u16],
    pub ys: &'a [u16],
    pub corners: &'a [u16],
    pub ghost plotted: { Plotted (office xs.now ys.now corners.now) },
}

// The sides of triangles, and for each of them the one that runs back along it, or the number of sides: so `check_mates` promises the table.
#[derive(Clone, Copy)]
pub struct Mates<'a> {
    pub corners: &'a [u16],
    pub mate: &'a [u16; 6129],
    pub ghost short: { length corners.now ≤ 6129 },
    pub ghost mated: { Mated corners.now mate.now },
}

// For each side the latest earlier one from the same point, or 65,535 for none.
#[derive(Clone, Copy)]
pub struct Chain<'a> {
    pub corners: &'a [u16],
    pub earlier: &'a [u16; 6129],
    pub ghost whole: { length corners.now % 3 ≡ 0 },
    pub ghost short: { length corners.now ≤ 6129 },
    pub ghost chained: { (s : ℕ) → s < length corners.now → get_or earlier.now s 0 ≡ final 65535 (starts corners.now (get_or corners.now s 0)) s },
}

// An office and the mates of its sides.
#[derive(Clone, Copy)]
pub struct Mesh<'a> {
    pub plot: Plot<'a>,
    pub mate: &'a [u16; 6129],
    pub ghost mated: { Mated plot.corners.now mate.now },
}

impl Spot {
    // A number by x, and then by y.
    pub fn key(self) -> u32
        ensures value { result ≡ self.x * 16384 + self.y }
        ensures bound { result < 268435456 }
    {
        u32::from(self.x) * 16384 + u32::from(self.y)
    }
}

impl<'a> Plot<'a> {
    ghost use Rattle.sheet.specs.Code.{At};
    ghost use Rattle.sheet.specs.Values.{office_of};

    pub(crate) fn point(&self, p: usize) -> Spot
        requires { p < length self.now.xs.now }
        ensures { At (office_of self.now) p result.x result.y }
    {
        Spot {
            x: self.xs[p],
            y: self.ys[p],
        }
    }

    // The point of the corner at place s.
    pub(crate) fn corner(&self, s: usize) -> Spot
        requires { s < length self.now.corners.now }
        ensures { At (office_of self.now) (get_or self.now.corners.now s 0) result.x result.y }
    {
        self.point(usize::from(self.corners[s]))
    }
}

impl<'a> Mesh<'a> {
    pub(crate) fn mates(&self) -> Mates<'a>
        ensures { (result.corners.now ≡ self.now.plot.corners.now) × (result.mate.now ≡ self.now.mate.now) }
    {
        Mates {
            corners: self.plot.corners,
            mate: self.mate,
        }
    }
}
