// How searches 3 and 4 probe points: the best so far, and the points of a pattern around it, in the table's order.

#![tactic(auto)]

mod point;

ghost use Rattle.std.specs.Prelude.{◌≡◌, ◌+◌, ◌≤◌, ◌<◌, pos, nat_abs, ◌+ℤ◌, ◌*ℤ◌, length};
ghost use Rattle.signed.specs.Int.{eq_z};
ghost use Rattle.signed.specs.Values.{unbias};
ghost use Rattle.order.specs.Vectors.{vec, same?};
ghost use Rattle.search.specs.Matchings.{target_in};
ghost use Rattle.search.specs.Target.{measure_candidate};
ghost use Rattle.probe.specs.Probe.{plus, probe_point, probe, at_origin, around, widened, is_in, fresh};
ghost use Rattle.probe.specs.BestSoFar.{vector_of, seen_of, one_more, pairs, probe_new, Pattern, Ongoing, Holds, result_of};

pub use point::Point;
use search::{Matching, MeasuredCandidate, SearchResult};

// The best vector seen by now, with its distortion and the number measured.
#[derive(Clone, Copy)]
pub struct BestSoFar {
    pub at: Point,
    pub least: u32,
    pub count: u32,
}

// (0,0), measured.
pub fn at_origin(matching: Matching) -> BestSoFar
    ensures { Holds result (at_origin (target_in matching.entry)) 1 }
{
    let y = matching.block.y;
    let x = matching.block.x;
    BestSoFar {
        at: Point { y: 16, x: 16 },
        least: distortion::block_distortion(
            matching.older,
            matching.newer,
            matching.block.setting,
            y,
            x,
            y,
            x,
        ),
        count: 1,
    }
}

// A point, measured with the least so far as ceiling, where it is a candidate.
fn against(matching: Matching, s: BestSoFar, at: Point) -> MeasuredCandidate
    ensures { result ≡ measure_candidate (target_in matching.entry) s.least (vector_of at) }
{
    let dy = signed::unbiased(at.y);
    let dx = signed::unbiased(at.x);
    search::measure_candidate(matching, dy, dx, s.least)
}

// The best so far stays, and one more is counted.
fn one_more(s: BestSoFar) -> BestSoFar
    requires { s.count < 4294967295 }
    ensures { result ≡ one_more s }
{
    BestSoFar {
        at: s.at,
        least: s.least,
        count: s.count + 1,
    }
}

// A point is tried: where it is a candidate it is measured, and only strictly smaller replaces.
fn probe_point(matching: Matching, s: BestSoFar, at: Point) -> BestSoFar
    requires { Ongoing s 1 }
    ensures { Holds result (probe_point (target_in matching.entry) (seen_of s) (vector_of at)) (s.count + 1) }
{
    match against(matching, s, at) {
        MeasuredCandidate::NotCandidate => s,
        MeasuredCandidate::OverCeiling => one_more(s),
        MeasuredCandidate::Distortion(d) => {
            if d < s.least {
                return BestSoFar {
                    at,
                    least: d,
                    count: s.count + 1,
                };
            }
            one_more(s)
        }
    }
}

// The part y is the part c moved by d.
fn is_from(y: usize, c: usize, d: i32) -> bool
    requires { (y ≤ 32) × (c ≤ 32) }
    ensures { result ≡ eq_z (unbias 16 y) (unbias 16 c +ℤ d) }
{
    let Some(a) = signed::shift(c, d, 32) else {
        return false;
    };
    y == a
}

// A point is (dy, dx) from a centre.
fn is_at(at: Point, centre: Point, dy: i32, dx: i32) -> bool
    ensures { result ≡ same? (vector_of at) (plus (vector_of centre) (vec dy dx)) }
{
    is_from(at.y, centre.y, dy) && is_from(at.x, centre.x, dx)
}

// A point is one of the pattern around a centre.
pub fn is_in(at: Point, centre: Point, offsets: &[[i32; 2]]) -> bool
    requires { length offsets.now ≤ 9 }
    ensures { result ≡ is_in (vector_of at) (around (vector_of centre) (pairs offsets.now)) }
{
    for &[dy, dx] in offsets {
        if is_at(at, centre, dy, dx) {
            return true;
        }
    }
    false
}

// The point (dy, dx) from a centre is tried, where it was not in the pattern `before` around the centre then.
fn probe_new(
    matching: Matching,
    s: BestSoFar,
    centre: Point,
    dy: i32,
    dx: i32,
    then: Point,
    before: &[[i32; 2]],
) -> BestSoFar
    requires { Ongoing s 1 × (length before.now ≤ 9) }
    ensures { Holds result (probe_new (target_in matching.entry) (around (vector_of then) (pairs before.now)) (seen_of s)
        (plus (vector_of centre) (vec dy dx))) (s.count + 1) }
{
    let Some(y) = signed::shift(centre.y, dy, 32) else {
        return s;
    };
    let Some(x) = signed::shift(centre.x, dx, 32) else {
        return s;
    };
    let at = Point { y, x };
    if is_in(at, then, before) {
        return s;
    }
    probe_point(matching, s, at)
}

// p times an offset.
fn scaled(p: u32, d: i32) -> i32
    requires { (p ≤ 16) × (nat_abs d ≤ 16) }
    ensures { result ≡ pos p *ℤ d }
{
    p as i32 * d
}

// A pattern's points around the best by now, at step size p, in the table's order, but for those in the pattern `before` around the centre then.
pub fn pattern_new(
    matching: Matching,
    s: BestSoFar,
    offsets: &[[i32; 2]],
    p: u32,
    then: Point,
    before: &[[i32; 2]],
) -> BestSoFar
    requires { Ongoing s 9 × Pattern offsets.now × (p ≤ 8) × (length before.now ≤ 9) }
    ensures { Holds result (probe (target_in matching.entry) (seen_of s)
        (fresh (around (vector_of then) (pairs before.now))
        (around (vector_of s.at) (widened p (pairs offsets.now))))) (s.count + 9) }
{
    let centre = s.at;
    let mut best = s;
    for &[dy, dx] in offsets {
        let down = scaled(p, dy);
        let across = scaled(p, dx);
        best = probe_new(matching, best, centre, down, across, then, before);
    }
    best
}

// A pattern's points around the best by now, at step size p, in the table's order: none was in a pattern before.
pub fn pattern(matching: Matching, s: BestSoFar, offsets: &[[i32; 2]], p: u32) -> BestSoFar
    requires { Ongoing s 9 × Pattern offsets.now × (p ≤ 8) }
    ensures { Holds result (probe (target_in matching.entry) (seen_of s)
        (around (vector_of s.at) (widened p (pairs offsets.now)))) (s.count + 9) }
{
    pattern_new(matching, s, offsets, p, s.at, &offsets[0..0])
}

// The answer: the parts without their 16.
pub fn result_of(s: BestSoFar) -> SearchResult
    ensures { result ≡ result_of (seen_of s) }
{
    SearchResult {
        refusal: 0,
        dy: signed::unbiased(s.at.y),
        dx: signed::unbiased(s.at.x),
        distortion: s.least,
        counts: search::only_at_one(s.count),
        dropped: 0,
    }
}
