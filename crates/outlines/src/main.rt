// The list printer: reads an office on standard input and prints a line per entry. Document 01, 'The printed list'.
// One byte more than a text may have is read, so that a longer one is seen. It stops where the output takes no more.
#![tactic(auto)]

ghost use Rattle.std.specs.Prelude.{◌≤◌, length};

use sheet::Refusal;
use std::io;
use std::io::{ErrorKind, Read};

// The lists of an office. Nobody compares lent lists, so it derives Clone and Copy alone.
#[derive(Clone, Copy)]
struct Office<'a> {
    xs: &'a [u16],
    ys: &'a [u16],
    corners: &'a [u16],
}

// What a draw of the largest office is lent.
#[derive(Drop)]
struct Lent {
    kept: [u8; 2043],
    rim: [u8; 1024],
    ring: [u16; 1024],
}

// Lays a line in a buffer and prints it; `lay` answers how many bytes it has.
fn print_line<Lay: FnOnce(&mut [u8]) -> usize>(
    rt: &impl Print,
    line: &mut [u8],
    lay: Lay,
) -> io::Result<()>
    requires { Lay.IsAlwaysCallable lay }
{
    let n = lay(line).min(line.len());
    rt.write_all(&line[..n])
}

fn print_refusal(rt: &impl Print, refusal: Refusal) -> io::Result<()> {
    print_line(rt, &mut [0; 64], |line| {
        listing::print_refusal(refusal.rule.number(), refusal.place, line)
    })
}

// The lines of some entries: each has the outline that its least limit draws.
fn print_entries(
    rt: &impl Print,
    office: &Office,
    lent: &mut Lent,
    least: &[u32],
) -> io::Result<()> {
    let mut line = [0; 21567];
    for limit in least {
        let drawn = peel::draw(
            office.xs,
            office.ys,
            office.corners,
            *limit,
            &mut lent.kept,
            &mut lent.rim,
            &mut lent.ring,
        );
        // A listed office was accepted, and so is drawn.
        let Ok(tally) = drawn else {
            return Ok(());
        };
        let ring = peel::outline(&lent.ring, tally);
        print_line(rt, &mut line, |line| {
            listing::print_line(*limit, tally.peeled, tally.area, ring, line)
        })?;
    }
    Ok(())
}

fn print_list(rt: &impl Print, office: &Office) -> io::Result<()> {
    let mut lent = Lent {
        kept: [0; 2043],
        rim: [0; 1024],
        ring: [0; 1024],
    };
    let mut least = [0u32; 1022];
    let mut peeled = [0u32; 1022];
    let mut area = [0u32; 1022];
    let listed = peel::list(
        office.xs,
        office.ys,
        office.corners,
        &mut lent.kept,
        &mut lent.rim,
        &mut lent.ring,
        &mut least,
        &mut peeled,
        &mut area,
    );
    match listed {
        Ok(count) => print_entries(rt, office, &mut lent, &least[..count.min(1022)]),
        Err(refusal) => print_refusal(rt, refusal),
    }
}

fn print(rt: &impl Print, text: &[u8]) -> io::Result<()> {
    let mut xs = [0u16; 16384];
    let mut ys = [0u16; 16384];
    let mut corners = [0u16; 32768];
    match listing::parse(text, &mut xs, &mut ys, &mut corners) {
        Ok(counts) => {
            let office = Office {
                xs: &xs[..counts.points],
                ys: &ys[..counts.points],
                corners: &corners[..3 * counts.triangles],
            };
            print_list(rt, &office)
        }
        Err(refusal) => print_refusal(rt, refusal),
    }
}

// Reads until the text is full, the input ends or a read fails; answers how many bytes were read. A read may be interrupted any
// number of times, so the loop has a bound that no run reaches.
fn read_full<R: Read>(reader: &mut R, text: &mut [u8]) -> usize
    ensures { result ≤ length text.new }
{
    let mut n = 0;
    for _ in 0..u64::MAX {
        if n == text.len() {
            break;
        }
        match reader.read(&mut text[n..]) {
            Ok(0) => break,
            Ok(more) => {
                n += more;
            }
            Err(e) if e.kind() == ErrorKind::Interrupted => {}
            Err(_) => break,
        }
    }
    n
}

fn main(rt: HostRuntime) {
    let mut text = [0u8; 65537];
    let mut input = rt.reader();
    let n = read_full(&mut input, &mut text);
    // README.md: an output that takes no more ends it without a message, and its exit status is 0.
    let _ = print(&rt, &text[..n]);
}
