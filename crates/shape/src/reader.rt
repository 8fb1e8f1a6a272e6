// A polygon that begins at a place of a block: the scan that finds its first fault, and the filling of the lists after it.
// For the layer above: no public call, so a `requires` may stand.
ghost use Rattle.std.specs.Prelude.{◌≡◌, ◌+◌, ◌*◌, ◌<◌, ◌≤◌, min, [], ◌∷◌, length, slice_set, OnOk};
ghost use Rattle.std.proofs.lemmas.List.Edits.{sets};
ghost use Rattle.sheet.specs.Refusal.{number};
ghost use Rattle.shape.specs.Answers.{asked, gives, reply, stated};
ghost use Rattle.shape.specs.Bytes.{code, order_of, number_at};
ghost use Rattle.shape.specs.Types.{type_of};
ghost use Rattle.shape.specs.Coordinates.{grid_at, ended, whole};
ghost use Rattle.shape.specs.Reading.{coordinates, grids, order_at, type_asks, size_asks, count, count_asks, polygon_asks, length_at, xs_at, ys_at};

use crate::Shape;
use crate::block::{Block, ByteOrder, number4};
use crate::coordinates::{coordinate_of, grid, position_at};
use sheet::{Refusal, Rule};

// What stands against the k bytes at a place: not all may be there. A place of any size is taken.
pub fn whole(s: &[u8], at: usize, k: usize) -> Result<(), Refusal>
    ensures result_value { reply result ≡ asked (whole k s.now at ∷ []) tt }
    ensures there { OnOk result (at + k ≤ length s.now) }
{
    if s.len() < k || s.len() - k < at {
        return Err(Rule::CutShort.at(at));
    }
    Ok(())
}

// What stands against the bytes past an end: none may be left.
pub fn ended(s: &[u8], end: usize) -> Result<(), Refusal>
    ensures { reply result ≡ asked (ended s.now end ∷ []) tt }
{
    if end < s.len() {
        return Err(Rule::BytesLeft.at(end));
    }
    Ok(())
}

// The byte order of a shape at a place, whose type is asked too: another type breaks the rule given.
pub fn typed(s: &[u8], at: usize, shape: Shape, rule: Rule) -> Result<ByteOrder, Refusal>
    requires { at ≤ length s.now }
    ensures result_value { reply result ≡ asked (type_asks s.now at (type_of shape) (number rule)) (order_of (order_at s.now at)) }
    ensures there { OnOk result (at + 5 ≤ length s.now) }
{
    whole(s, at, 1)?;
    let order = ByteOrder::at(s[at], at)?;
    whole(s, at + 1, 4)?;
    let block = Block { bytes: s, order };
    if block.number4(at + 1) != shape.number() {
        return Err(rule.at(at + 1));
    }
    Ok(order)
}

// What stands against the byte order and the type at a place, by its number and its place: the number given for another type may be no rule's, as the
// type may be no `Shape`'s.
pub fn type_fault(s: &[u8], at: usize, shape: u64, number: u8) -> Result<(), (u8, usize)>
    requires { at ≤ length s.now }
    ensures { stated result ≡ asked (type_asks s.now at shape number) tt }
{
    if s.len() < at + 1 {
        return Err((Rule::CutShort.number(), at));
    }
    let order = s[at];
    if 1 < order {
        return Err((Rule::ByteOrder.number(), at));
    }
    if s.len() < at + 1 + 4 {
        return Err((Rule::CutShort.number(), at + 1));
    }
    if u64::from(number4(s, order, at + 1)) != shape {
        return Err((number, at + 1));
    }
    Ok(())
}

impl Block<'_> {
    // What stands against the position at a place: x is judged before y is looked at.
    pub fn position_fault(&self, at: usize) -> Result<(), Refusal>
        requires { at ≤ length self.now.bytes.now }
        ensures { reply result ≡ asked (coordinates 2 (code self.now.order) self.now.bytes.now at) tt }
    {
        let half = at + 8;
        whole(self.bytes, at, 8)?;
        if self.bytes.len() < half + 8 {
            self.coordinate_at(at).grid_number_at(at)?;
            return Err(Rule::CutShort.at(half));
        }
        let p = self.position_at(at);
        coordinate_of(p.x).grid_number_at(at)?;
        coordinate_of(p.y).grid_number_at(half)?;
        Ok(())
    }

    // Fills the lists with the grid numbers of n positions from a place on.
    pub fn fill(&self, at: usize, n: usize, xs: &mut [u16], ys: &mut [u16])
        requires n_in_bounds { at + 16 * n ≤ length self.now.bytes.now }
        requires lists_in_bounds { (n ≤ length xs.old) × (n ≤ length ys.old) }
        ensures xs_after { xs.new ≡ sets xs.old 0 (grids n (code self.now.order) self.now.bytes.now at) }
        ensures ys_after { ys.new ≡ sets ys.old 0 (grids n (code self.now.order) self.now.bytes.now (at + 8)) }
    {
        let order = u8::from(self.order);
        for i in 0..n {
            keep(self.bytes, order, at + 16 * i, xs, ys, i);
        }
    }

    // The count at a place, for lists that both have so much room; `repeated` is 1 where the first position is repeated last: a number,
    // since it is added.
    pub fn sized(&self, at: usize, repeated: usize, room: usize) -> Result<usize, Refusal>
        requires { (at ≤ length self.now.bytes.now) × (repeated ≤ 1) }
        ensures { reply result ≡ asked (size_asks repeated (code self.now.order) self.now.bytes.now at room) (number_at 4 (code self.now.order) self.now.bytes.now at) }
    {
        size_fault(self.bytes, self.order.into(), at, repeated, room)?;
        Ok(self.number4(at) as usize)
    }

    // The count of positions of a polygon at a place, whose count of rings is asked too.
    fn counted(&self, at: usize, room: usize) -> Result<usize, Refusal>
        requires { at + 5 ≤ length self.now.bytes.now }
        ensures { reply result ≡ asked (count_asks (code self.now.order) self.now.bytes.now at room) (count (code self.now.order) self.now.bytes.now at) }
    {
        whole(self.bytes, at + 5, 4)?;
        if self.number4(at + 5) != 1 {
            return Err(Rule::RingCount.at(at + 5));
        }
        self.sized(at + 9, 1, room)
    }
}

// What stands against the position at a place, under any byte for a byte order: docs/PROMISES.md names it so.
pub fn position_fault(s: &[u8], order: u8, at: usize) -> Result<(), Refusal>
    requires { at ≤ length s.now }
    ensures { reply result ≡ asked (coordinates 2 order s.now at) tt }
{
    let order = ByteOrder::of(order);
    Block { bytes: s, order }.position_fault(at)
}

// What stands against n positions from a place on.
fn scan(s: &[u8], order: u8, at: usize, n: usize) -> Result<(), Refusal>
    requires { at ≤ length s.now }
    ensures { reply result ≡ asked (coordinates (2 * n) order s.now at) tt }
{
    for i in 0..n {
        position_fault(s, order, at + 16 * i)?;
    }
    Ok(())
}

// Puts the grid numbers of the position at a place into the i-th places of the lists, under any byte for a byte order.
pub fn keep(s: &[u8], order: u8, at: usize, xs: &mut [u16], ys: &mut [u16], i: usize)
    requires at_in_bounds { at + 16 ≤ length s.now }
    requires i_in_bounds { (i < length xs.old) × (i < length ys.old) }
    ensures xs_after { xs.new ≡ slice_set xs.old i (grid_at order s.now at) }
    ensures ys_after { ys.new ≡ slice_set ys.old i (grid_at order s.now (at + 8)) }
{
    let p = position_at(s, order, at);
    xs[i] = grid(p.x);
    ys[i] = grid(p.y);
}

// Fills the lists with the grid numbers of n positions from a place on, under any byte for a byte order.
pub fn fill(s: &[u8], order: u8, at: usize, n: usize, xs: &mut [u16], ys: &mut [u16])
    requires n_in_bounds { at + 16 * n ≤ length s.now }
    requires lists_in_bounds { (n ≤ length xs.old) × (n ≤ length ys.old) }
    ensures xs_after { xs.new ≡ sets xs.old 0 (grids n order s.now at) }
    ensures ys_after { ys.new ≡ sets ys.old 0 (grids n order s.now (at + 8)) }
{
    let order = ByteOrder::of(order);
    Block { bytes: s, order }.fill(at, n, xs, ys);
}

// What stands against the count at a place, for lists that both have so much room, under any byte for a byte order.
pub fn size_fault(
    s: &[u8],
    order: u8,
    at: usize,
    repeated: usize,
    room: usize,
) -> Result<(), Refusal>
    requires { (at ≤ length s.now) × (repeated ≤ 1) }
    ensures result_value { reply result ≡ asked (size_asks repeated order s.now at room) tt }
    ensures there { OnOk result (at + 4 ≤ length s.now) }
{
    whole(s, at, 4)?;
    let count = number4(s, order, at) as usize;
    if count < 3 + repeated || 1024 + repeated < count {
        return Err(Rule::PositionCount.at(at));
    }
    if room < count - repeated {
        return Err(Rule::ShortLists.at(at));
    }
    Ok(())
}

// A polygon at a place, scanned and not kept, for lists that both have so much room: the ring's length.
pub fn polygon_at(s: &[u8], at: usize, room: usize) -> Result<usize, Refusal>
    requires { at ≤ length s.now }
    ensures { reply result ≡ asked (polygon_asks s.now at room) (length_at s.now at) }
{
    let order = typed(s, at, Shape::Polygon, Rule::OtherType)?;
    let block = Block { bytes: s, order };
    let n = block.counted(at, room)? - 1;
    let first = at + 13;
    scan(s, s[at], first, n + 1)?;
    let last = first + 16 * n;
    if block.grid_position(first) != block.grid_position(last) {
        return Err(Rule::OpenRing.at(last));
    }
    Ok(n)
}

// Fills the fronts of the lists with the ring of a polygon at a place that was taken, and answers its length.
pub fn fill_polygon(s: &[u8], at: usize, xs: &mut [u16], ys: &mut [u16]) -> usize
    requires { gives (length_at s.now at) ≡ asked (polygon_asks s.now at (min (length xs.old) (length ys.old))) (length_at s.now at) }
    ensures value { result ≡ length_at s.now at }
    ensures xs_after { xs.new ≡ sets xs.old 0 (xs_at s.now at) }
    ensures ys_after { ys.new ≡ sets ys.old 0 (ys_at s.now at) }
{
    let order = s[at];
    let n = number4(s, order, at + 9) as usize - 1;
    fill(s, order, at + 13, n, xs, ys);
    n
}
