// One step.
// For the layer above: no public call, so a `requires` may stand.
ghost use Rattle.rim.specs.Code.{front, State, Stepped};
ghost use Rattle.rim.specs.Values.{office_of, Waits};

use crate::Tally;
use crate::answers::Step;
use crate::office::{Accepted, Plan};
use crate::queue::Queue;
use sheet::sides::last_of;

// Peels the side to peel next where it is longer than the limit. Both lists of marks come as they are lent: with a struct of the two, each contract
// would also have to say that they are still the same lists. `State`
// stays a clause, since it speaks of the marks, the tally and the office at once.
pub fn step(
    office: &Accepted,
    kept: &mut [u8],
    rim: &mut [u8],
    queue: &mut Queue,
    limit: u32,
    tally: Tally,
) -> (Step, Tally)
    requires { State (office_of office.now) office.now.mate.now kept.old rim.old tally.peeled tally.area tally.ring × Waits (office_of office.now) (front office.now.corners.now kept.old) queue.old }
    ensures stepped { Stepped (office_of office.now) limit office.now.mate.now kept.old rim.old kept.new rim.new tally.peeled result.0 result.1.peeled result.1.area result.1.ring }
    ensures queued { Waits (office_of office.now) (front office.now.corners.now kept.new) queue.new }
{
    match queue.next_side(office, kept, rim) {
        Some(side) if side.squared > limit => {
            let triangle = side.place / 3;
            let plan = Plan {
                xs: office.xs,
                ys: office.ys,
                corners: office.corners,
            };
            let gone = plan.area_of(triangle);
            let apex = usize::from(office.corners[last_of(side.place)]);
            kept[triangle] = 0;
            rim[apex] = 1;
            queue.join(&plan, office.mate, rim, side.place);
            let after = tally.after_peel(tally.area - gone, tally.ring + 1);
            (
                Step::Peeled {
                    triangle,
                    squared: side.squared,
                },
                after,
            )
        }
        _ => (Step::Nothing, tally),
    }
}
