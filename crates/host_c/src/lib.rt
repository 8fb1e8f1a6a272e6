// The export of `host`: the C function that include/outline.h declares. It calls the function of its name there and promises the same.
#![tactic(auto)]

ghost use Rattle.std.specs.Prelude.{◌≡◌};
ghost use Rattle.host.specs.Polygon.{code, after_polygon};

// Draws the outline of an office at a limit and writes it as a polygon at the front of the output. Points are two bytes x and two bytes y,
// low first, triangles three times two bytes. Answers the bytes written, or minus the refusal number; a refusal writes nothing.
#[unsafe(no_mangle)]
pub extern "C" fn outline_polygon(
    points: &[u8],
    triangles: &[u8],
    limit: u32,
    out: &mut [u8],
) -> i64
    ensures value { result ≡ code (after_polygon points.now triangles.now limit out.old).answer }
    ensures out_after { out.new ≡ (after_polygon points.now triangles.now limit out.old).out }
{
    host::outline_polygon(points, triangles, limit, out)
}
