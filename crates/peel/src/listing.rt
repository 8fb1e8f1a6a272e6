// All outlines of an acceptable office.
// For this crate: no public call, so a `requires` may stand.
ghost use Rattle.std.specs.Prelude.{◌≡◌, ◌+◌, ◌/◌, ◌<◌, ◌≤◌, length, set};
ghost use Rattle.rim.specs.Code.{State};
ghost use Rattle.rim.specs.Values.{office_of};
ghost use Rattle.rim.specs.Peel as peeling;
ghost use Rattle.peel.specs.List.{entries};
ghost use Rattle.peel.specs.Code.{Drew, entries_on, Noted, Lent, Written};

use rim::Tally;
use rim::answers::Step;
use rim::office::{Accepted, Taken};
use rim::queue::Queue;
use rim::step::step;

// The three lists of entries come one by one, as they are lent. Writes an entry at place i: its least limit, and the tally that it has.
fn note(least: &mut [u32], peeled: &mut [u32], area: &mut [u32], i: usize, limit: u32, tally: Tally)
    requires { (i < length least.old) × (i < length peeled.old) × (i < length area.old) }
    ensures { (least.new ≡ set least.old i limit) × (peeled.new ≡ set peeled.old i tally.peeled) × (area.new ≡ set area.old i tally.area) }
{
    least[i] = limit;
    peeled[i] = tally.peeled;
    area[i] = tally.area;
}

// Peels until nothing is removable, and writes an entry before each peel that is shorter than all before, and one at the end; how many entries, and
// the tally of the last. A loop of its own, and no closure that `peel_all` calls: a clause of that would have to say what each call leaves.
// No squared length is as large as the first `shortest`, so the first peel has its entry.
pub fn list_all(
    office: &Accepted,
    kept: &mut [u8],
    rim: &mut [u8],
    begun: Tally,
    least: &mut [u32],
    peeled: &mut [u32],
    area: &mut [u32],
) -> (usize, Tally)
    requires state { State (office_of office.now) office.now.mate.now kept.old rim.old begun.peeled begun.area begun.ring }
    requires peeled_in_bounds { (length (entries_on (office_of office.now) kept.old begun.peeled) ≤ length least.old) × (length (entries_on (office_of office.now) kept.old begun.peeled) ≤ length peeled.old) × (length (entries_on (office_of office.now) kept.old begun.peeled) ≤ length area.old) }
    ensures drew { Drew (office_of office.now) 0 office.now.mate.now kept.old rim.old begun.peeled kept.new rim.new result.1.peeled result.1.area result.1.ring }
    ensures noted { Noted (entries_on (office_of office.now) kept.old begun.peeled) least.old peeled.old area.old least.new peeled.new area.new result.0 }
{
    let mut queue = Queue::of_rim(office, kept);
    let mut tally = begun;
    let mut shortest = u32::MAX;
    let mut count = 0;
    loop {
        let (answer, next) = step(office, kept, rim, &mut queue, 0, tally);
        match answer {
            Step::Nothing => {
                note(least, peeled, area, count, 0, tally);
                return (count + 1, next);
            }
            Step::Peeled { squared, .. } => {
                if squared < shortest {
                    note(least, peeled, area, count, squared, tally);
                    shortest = squared;
                    count += 1;
                }
            }
        }
        tally = next;
    }
}

// Lists all outlines of an acceptable office; how many there are.
pub fn list_accepted(
    office: &Taken,
    kept: &mut [u8],
    rim: &mut [u8],
    ring: &mut [u16],
    least: &mut [u32],
    peeled: &mut [u32],
    area: &mut [u32],
) -> usize
    requires marks_fit { (length office.now.sheet.corners.now / 3 ≤ length kept.old) × (length office.now.sheet.xs.now ≤ length rim.old) × (length office.now.sheet.xs.now ≤ length ring.old) }
    requires entries_fit { (length office.now.sheet.xs.now ≤ length least.old + 2) × (length office.now.sheet.xs.now ≤ length peeled.old + 2) × (length office.now.sheet.xs.now ≤ length area.old + 2) }
    ensures lent { Lent (office_of office.now.sheet) (peeling.drawn (office_of office.now.sheet) 0) kept.old rim.old ring.old kept.new rim.new ring.new }
    ensures written { Written (entries (office_of office.now.sheet)) least.old peeled.old area.old least.new peeled.new area.new result }
{
    let begun = office.begin(kept, rim);
    let (count, tally) = list_all(&office.sheet, kept, rim, begun, least, peeled, area);
    office.sheet.lay_ring(kept, rim, tally, ring);
    count
}
