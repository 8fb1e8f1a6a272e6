// What the searches and steps of this layer answer.

// The side to peel next, by the place of its first corner, with its squared length.
#[derive(Clone, Copy, Debug, PartialEq, Eq)]
pub struct Side {
    pub place: usize,
    pub squared: u32,
}

// What one step did: an enum of its own, since document 01 names it.
#[derive(Clone, Copy, Debug, PartialEq, Eq)]
pub enum Step {
    Peeled { triangle: usize, squared: u32 },
    Nothing,
}
