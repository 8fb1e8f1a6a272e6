// A ring of point numbers as a polygon.
// For this crate: no public call, so a `requires` may stand.
ghost use Rattle.std.specs.Prelude.{◌≡◌, ◌≤◌, length};
ghost use Rattle.shape.specs.Answers.{reply};
ghost use Rattle.host.specs.Polygon.{along, writes};

use sheet::Refusal;

// The coordinates of a ring's points, in the front of a lent list; 0 for a number that no point has, as the definition `along` has it.
fn follow<'a>(coordinates: &[u16], ring: &[u16], list: &'a mut [u16]) -> &'a [u16]
    requires { length ring.now ≤ length list.old }
    ensures { result.now ≡ along coordinates.now ring.now }
{
    let followed = &mut list[..ring.len()];
    for (i, coordinate) in followed.iter_mut().enumerate() {
        let place = usize::from(ring[i]);
        *coordinate = coordinates.get(place).copied().unwrap_or(0);
    }
    followed
}

// Writes a ring as a polygon at the front of the output.
#[tactic(auto, unfolding(crate::specs::Polygon::writes))]
pub fn write_ring(xs: &[u16], ys: &[u16], ring: &[u16], out: &mut [u8]) -> Result<usize, Refusal>
    requires { length ring.now ≤ 1024 }
    ensures result_value { reply result ≡ (writes (along xs.now ring.now) (along ys.now ring.now) out.old).answer }
    ensures out_after { out.new ≡ (writes (along xs.now ring.now) (along ys.now ring.now) out.old).out }
{
    let mut across = [0u16; 1024];
    let mut up = [0u16; 1024];
    let xs = follow(xs, ring, &mut across);
    let ys = follow(ys, ring, &mut up);
    exchange::write(xs, ys, out)
}
