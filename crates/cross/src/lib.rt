// Search 4, cross: Ghanbari's cross search, by crosses (X) at halved step sizes and a last cross (+) or (X). specs/Cross.antt has its steps 1 to 8.

#![tactic(auto)]

ghost use Rattle.std.specs.Prelude.{◌≡◌, ◌+◌, ◌/◌, ◌≤◌, T};
ghost use Rattle.refusals.specs.Cross.{cross_window};
ghost use Rattle.search.specs.Matchings.{target_in};
ghost use Rattle.probe.specs.BestSoFar.{vector_of, seen_of, Ongoing, Holds, result_of};
ghost use Rattle.cross.specs.Cross.{pass, all_passes, on_diagonal, ended, finished, cross};

use probe::{BestSoFar, Point};
use search::{Matching, SearchResult};

// The tables of offset pairs, dy and dx: the ends of a St. Andrew's cross (X) and of a Greek cross (+), and step 6's points.
const DIAGONAL_CROSS: [[i32; 2]; 4] = [[-1, -1], [-1, 1], [1, -1], [1, 1]];

const PLUS_CROSS: [[i32; 2]; 4] = [[-1, 0], [0, -1], [1, 0], [0, 1]];

const DIAGONAL: [[i32; 2]; 3] = [[0, 0], [-1, -1], [1, 1]];

// Steps 3 and 4, at step size p.
fn pass_at(matching: Matching, s: BestSoFar, p: u32) -> BestSoFar
    requires { Ongoing s 9 × (p ≤ 8) }
    ensures { Holds result (pass (target_in matching.entry) p (seen_of s)) (s.count + 9) }
{
    let t = DIAGONAL_CROSS;
    probe::pattern(matching, s, &t, p)
}

// Steps 2 to 5: passes at w / 2, w / 4 and so on, down to 2. w is halved log2 w times, the last time to 1.
fn all_passes(matching: Matching, s: BestSoFar) -> BestSoFar
    requires { Ongoing s 27 × T (cross_window matching.block.w) }
    ensures { Holds result (all_passes matching.entry.block.w (target_in matching.entry) (matching.entry.block.w / 2) (seen_of s)) (s.count + 27) }
{
    let mut best = s;
    let mut p = (matching.block.w / 2) as u32;
    for _pass in 1..refusals::log2_window(matching.block.w) {
        best = pass_at(matching, best, p);
        p /= 2;
    }
    best
}

// Step 6: the minimum is the centre, or the point above and left of it, or the one below and right.
fn on_diagonal(centre: Point, minimum: Point) -> bool
    ensures { result ≡ on_diagonal (vector_of centre) (vector_of minimum) }
{
    let t = DIAGONAL;
    probe::is_in(minimum, centre, &t)
}

// Steps 7 and 8.
fn end(matching: Matching, s: BestSoFar, plus_cross: bool) -> BestSoFar
    requires { Ongoing s 9 }
    ensures { Holds result (ended (target_in matching.entry) plus_cross (seen_of s)) (s.count + 9) }
{
    if plus_cross {
        let t = PLUS_CROSS;
        return probe::pattern(matching, s, &t, 1);
    }
    pass_at(matching, s, 1)
}

// The pass at p = 1, then steps 6 to 8.
fn finish(matching: Matching, s: BestSoFar) -> BestSoFar
    requires { Ongoing s 18 }
    ensures { Holds result (finished (target_in matching.entry) (seen_of s)) (s.count + 18) }
{
    let q = pass_at(matching, s, 1);
    let plus_cross = on_diagonal(s.at, q.at);
    end(matching, q, plus_cross)
}

// The search: step 1, then the rest.
pub fn search(matching: Matching, t: u32) -> SearchResult
    requires { T (cross_window matching.block.w) }
    ensures { result ≡ result_of (cross (target_in matching.entry) t matching.entry.block.w) }
{
    let s = probe::at_origin(matching);
    if s.least < t {
        return probe::result_of(s);
    }
    let q = all_passes(matching, s);
    let r = finish(matching, q);
    probe::result_of(r)
}
