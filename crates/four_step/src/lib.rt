// Search 3, four-step: Po and Ma's four-step search, by patterns of nine points, two apart, that move until their centre stays, then the eight
// points next to it. specs/FourStep.antt has its steps.

#![tactic(auto)]

ghost use Rattle.std.specs.Prelude.{◌≡◌, ◌+◌, ◌≤◌};
ghost use Rattle.search.specs.Matchings.{target_in};
ghost use Rattle.order.specs.Vectors.{same?};
ghost use Rattle.probe.specs.BestSoFar.{vector_of, seen_of, Ongoing, Holds, result_of};
ghost use Rattle.four_step.specs.FourStep.{step1, step23, step4, from3, from2, four_step};

use probe::{BestSoFar, Point};
use search::{Matching, SearchResult};

// The tables of offset pairs, dy and dx: centre, then the eight around it, row by row, at distance 2; the eight at distance 1.
const SQUARE: [[i32; 2]; 9] = [
    [0, 0],
    [-2, -2],
    [-2, 0],
    [-2, 2],
    [0, -2],
    [0, 2],
    [2, -2],
    [2, 0],
    [2, 2],
];

const RING: [[i32; 2]; 8] = [
    [-1, -1],
    [-1, 0],
    [-1, 1],
    [0, -1],
    [0, 1],
    [1, -1],
    [1, 0],
    [1, 1],
];

// Step 1: (0,0), then the eight around it.
fn step_one(matching: Matching) -> BestSoFar
    ensures { Holds result (step1 (target_in matching.entry)) 10 }
{
    let s = probe::at_origin(matching);
    let t = SQUARE;
    probe::pattern(matching, s, &t[1..9], 1)
}

// Steps 2 and 3, after a pattern around the centre.
fn step_on(matching: Matching, s: BestSoFar, centre: Point) -> BestSoFar
    requires { Ongoing s 9 }
    ensures { Holds result (step23 (target_in matching.entry) (vector_of centre) (seen_of s)) (s.count + 9) }
{
    let t = SQUARE;
    probe::pattern_new(matching, s, &t, 1, centre, &t)
}

// Step 4.
fn step_last(matching: Matching, s: BestSoFar) -> BestSoFar
    requires { Ongoing s 9 }
    ensures { Holds result (step4 (target_in matching.entry) (seen_of s)) (s.count + 9) }
{
    let t = RING;
    probe::pattern(matching, s, &t, 1)
}

// The centre stays: it is still the best.
fn stays(s: BestSoFar, centre: Point) -> bool
    ensures { result ≡ same? (vector_of s.at) (vector_of centre) }
{
    s.at.y == centre.y && s.at.x == centre.x
}

// From step 3 on, after a pattern around the centre: a centre that stays leads to step 4, and so does step 3.
fn from_three(matching: Matching, s: BestSoFar, centre: Point) -> BestSoFar
    requires { Ongoing s 18 }
    ensures { Holds result (from3 (target_in matching.entry) (vector_of centre) (seen_of s)) (s.count + 18) }
{
    if stays(s, centre) {
        return step_last(matching, s);
    }
    let t = step_on(matching, s, centre);
    step_last(matching, t)
}

// From step 2 on, after a pattern around the centre: a centre that stays leads to step 4, step 2 to step 3.
fn from_two(matching: Matching, s: BestSoFar, centre: Point) -> BestSoFar
    requires { Ongoing s 27 }
    ensures { Holds result (from2 (target_in matching.entry) (vector_of centre) (seen_of s)) (s.count + 27) }
{
    if stays(s, centre) {
        return step_last(matching, s);
    }
    let t = step_on(matching, s, centre);
    from_three(matching, t, s.at)
}

// The search.
pub fn search(matching: Matching) -> SearchResult
    ensures { result ≡ result_of (four_step (target_in matching.entry)) }
{
    let s = step_one(matching);
    let r = from_two(matching, s, Point { y: 16, x: 16 });
    probe::result_of(r)
}
