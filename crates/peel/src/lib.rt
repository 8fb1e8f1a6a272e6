// Layer 2, peeling: draw, outline and list. Document 01, 'Peeling'.
#![tactic(auto)]

mod drawing;
mod listing;
mod room;

ghost use Rattle.std.specs.Prelude.{◌≡◌};
ghost use Rattle.peel.specs.Answer.{used, DrawPromise, ListPromise};

use drawing::draw_accepted;
use listing::list_accepted;
pub use rim::Tally;
use rim::office::Taken;
use room::{draw_room, list_room};
use sheet::Refusal;

// Draws the outline at a limit: peels while a removable side is strictly longer. Afterwards a triangle's mark is 1 where it is kept, a point's
// is 1 where it is on the rim, else 0, and the ring stands in front. Later places stay as they were; a refusal writes nothing.
pub fn draw(
    xs: &[u16],
    ys: &[u16],
    corners: &[u16],
    limit: u32,
    kept: &mut [u8],
    rim: &mut [u8],
    ring: &mut [u16],
) -> Result<Tally, Refusal>
    ensures { DrawPromise xs.now ys.now corners.now limit kept.old rim.old ring.old result kept.new rim.new ring.new }
{
    let room = draw_room(xs.len(), corners.len(), kept.len(), rim.len(), ring.len());
    let mut mate = [0u16; 6129];
    let office = Taken::check(xs, ys, corners, room, &mut mate)?;
    Ok(draw_accepted(&office, limit, kept, rim, ring))
}

// The used part of a lent ring buffer; the empty part where the tally claims more than the buffer holds.
pub fn outline<'a>(ring: &'a [u16], tally: Tally) -> &'a [u16]
    ensures { result.now ≡ used ring.now tally.ring }
{
    if tally.ring <= ring.len() {
        &ring[..tally.ring]
    } else {
        &ring[..0]
    }
}

// Lists every outline that a limit gives, once, with the least limit that gives it, from the hull on. Marks and ring end as a draw at limit 0
// leaves them. Later places of the lists stay as they were; a refusal writes nothing.
pub fn list(
    xs: &[u16],
    ys: &[u16],
    corners: &[u16],
    kept: &mut [u8],
    rim: &mut [u8],
    ring: &mut [u16],
    least: &mut [u32],
    peeled: &mut [u32],
    area: &mut [u32],
) -> Result<usize, Refusal>
    ensures { ListPromise xs.now ys.now corners.now kept.old rim.old ring.old least.old peeled.old area.old result kept.new rim.new ring.new least.new peeled.new area.new }
{
    let room = list_room(
        xs.len(),
        corners.len(),
        kept.len(),
        rim.len(),
        ring.len(),
        least.len(),
        peeled.len(),
        area.len(),
    );
    let mut mate = [0u16; 6129];
    let office = Taken::check(xs, ys, corners, room, &mut mate)?;
    Ok(list_accepted(&office, kept, rim, ring, least, peeled, area))
}
