// The outline of an acceptable office at a limit.
// For this crate: no public call, so a `requires` may stand.
ghost use Rattle.std.specs.Prelude.{◌/◌, ◌≤◌, length};
ghost use Rattle.rim.specs.Code.{State};
ghost use Rattle.rim.specs.Values.{office_of};
ghost use Rattle.rim.specs.Peel as peeling;
ghost use Rattle.peel.specs.Code.{Drew, Outlined};

use rim::Tally;
use rim::answers::Step;
use rim::office::{Accepted, Taken};
use rim::queue::Queue;
use rim::step::step;

// Peels until nothing is removable above the limit.
pub fn peel_all(
    office: &Accepted,
    kept: &mut [u8],
    rim: &mut [u8],
    limit: u32,
    begun: Tally,
) -> Tally
    requires { State (office_of office.now) office.now.mate.now kept.old rim.old begun.peeled begun.area begun.ring }
    ensures { Drew (office_of office.now) limit office.now.mate.now kept.old rim.old begun.peeled kept.new rim.new result.peeled result.area result.ring }
{
    let mut queue = Queue::of_rim(office, kept);
    let mut tally = begun;
    loop {
        let (answer, next) = step(office, kept, rim, &mut queue, limit, tally);
        tally = next;
        match answer {
            Step::Nothing => return tally,
            Step::Peeled { .. } => {}
        }
    }
}

// Draws the outline of an acceptable office. Listing has the like of its own: it answers a count, and lends three lists more.
pub fn draw_accepted(
    office: &Taken,
    limit: u32,
    kept: &mut [u8],
    rim: &mut [u8],
    ring: &mut [u16],
) -> Tally
    requires { (length office.now.sheet.corners.now / 3 ≤ length kept.old) × (length office.now.sheet.xs.now ≤ length rim.old) × (length office.now.sheet.xs.now ≤ length ring.old) }
    ensures { Outlined (office_of office.now.sheet) (peeling.drawn (office_of office.now.sheet) limit) kept.old rim.old ring.old kept.new rim.new ring.new result.peeled result.area result.ring }
{
    let begun = office.begin(kept, rim);
    let tally = peel_all(&office.sheet, kept, rim, limit, begun);
    office.sheet.lay_ring(kept, rim, tally, ring);
    tally
}
