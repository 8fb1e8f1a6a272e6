// Whether the lent buffers are long enough, by their lengths.
ghost use Rattle.std.specs.Prelude.{◌≡◌, ◌&&◌, ◌-◌, ◌/◌, leb};

// A mark per triangle, a mark per point, and a ring of all points.
pub fn draw_room(points: usize, corners: usize, kept: usize, rim: usize, ring: usize) -> bool
    ensures { result ≡ (leb (corners / 3) kept && leb points rim && leb points ring) }
{
    (corners / 3 <= kept) & (points <= rim) & (points <= ring)
}

// The same, and a place for each entry, of which there are at most two fewer than points, in the three lists.
pub fn list_room(
    points: usize,
    corners: usize,
    kept: usize,
    rim: usize,
    ring: usize,
    least: usize,
    peeled: usize,
    area: usize,
) -> bool
    ensures { result ≡ (leb (corners / 3) kept && leb points rim && leb points ring && leb (points - 2) least && leb (points - 2) peeled && leb (points - 2) area) }
{
    let most = points.saturating_sub(2);
    draw_room(points, corners, kept, rim, ring)
        & (most <= least)
        & (most <= peeled)
        & (most <= area)
}
