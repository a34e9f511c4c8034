// The distances of all candidates at once, by squares, in 32 bits, where N × m is at most 256. The candidate at row i and column j of its reach stands at
// place (N + 32) i + j; places between rows are computed too, and never looked at.

#![tactic(auto)]

ghost use Rattle.std.specs.Prelude.{◌≡◌, ℕ, ◌+◌, ◌*◌, ◌≤◌, ◌<◌, T, length, get_or};
ghost use Rattle.base.specs.Lists.{fill_to};
ghost use Rattle.base.specs.Sum.{sum_to};
ghost use Rattle.refusals.specs.Refusals.{block_size_ok};
ghost use Rattle.boxes.specs.Boxes.{Cut, area, Filled};
ghost use Rattle.boxes.specs.Distances.{Numbered};
ghost use Rattle.boxes.specs.Runs.{places, carried, Runs, Inside};
ghost use Rattle.pruned_wide.specs.Wide.{squared, row_squares, squares_of, squares_at, Wide};

use boxes::{Level, PLACES};

// The square of how far two sums differ.
fn square(older: u16, newer: u16) -> u32
    ensures { result ≡ squared newer older }
{
    let d = newer.abs_diff(older) as u32;
    d * d
}

// The squared differences of COUNT squares in a row of an older block, the first at place `at`, and the newer ones, summed.
fn run_at<const COUNT: usize>(boxes: &[u16], at: usize, m: usize, own: &[u16; COUNT]) -> u32
    requires { ((q : ℕ) → q < COUNT → at + m * q < length boxes.now)
        × (sum_to (λ q. squared (get_or own.now q 0) (get_or boxes.now (at + m * q) 0)) COUNT ≤ 4294967295) }
    ensures { result ≡ sum_to (λ q. squared (get_or own.now q 0) (get_or boxes.now (at + m * q) 0)) COUNT }
{
    let mut sum: u32 = 0;
    for q in 0..COUNT {
        sum += square(boxes[at + m * q], own[q]);
    }
    sum
}

// Adds that of the older blocks of all candidates, or begins with it, where the numbers start afresh.
fn add_run<const COUNT: usize, const FRESH: bool>(
    boxes: &[u16],
    at: usize,
    own: usize,
    m: usize,
    span: usize,
    numbers: &mut [u32; PLACES],
)
    requires { (span ≤ places) × (length numbers.old ≡ places) × (COUNT ≤ 4) × (0 < COUNT) × Inside boxes.now at own m COUNT span
        × ((t : ℕ) → t < span → carried FRESH (get_or numbers.old t 0) + row_squares boxes.now (at + t) own m COUNT ≤ 4294967295) }
    ensures { numbers.new ≡ fill_to numbers.old 0
        (λ t. carried FRESH (get_or numbers.old t 0) + row_squares boxes.now (at + t) own m COUNT) span }
{
    let v = boxes::run_of_squares::<COUNT>(boxes, own, m);
    for t in 0..span {
        numbers[t] = boxes::carried(FRESH, numbers[t]) + run_at(boxes, at + t, m, &v);
    }
}

// The same for k squares: for 1, 2 and 4 at a time the compiler makes code of its own.
fn add_row<const FRESH: bool>(
    boxes: &[u16],
    at: usize,
    own: usize,
    m: usize,
    k: usize,
    span: usize,
    numbers: &mut [u32; PLACES],
)
    requires { (span ≤ places) × (length numbers.old ≡ places) × Runs k × (0 < k) × Inside boxes.now at own m k span
        × ((t : ℕ) → t < span → carried FRESH (get_or numbers.old t 0) + row_squares boxes.now (at + t) own m k ≤ 4294967295) }
    ensures { numbers.new ≡ fill_to numbers.old 0
        (λ t. carried FRESH (get_or numbers.old t 0) + row_squares boxes.now (at + t) own m k) span }
{
    match k {
        1 => add_run::<1, FRESH>(boxes, at, own, m, span, numbers),
        2 => add_run::<2, FRESH>(boxes, at, own, m, span, numbers),
        _ => {
            add_run::<4, FRESH>(boxes, at, own, m, span, numbers);
            for run in 1..k / 4 {
                let q = 4 * run;
                add_run::<4, false>(boxes, at + m * q, own + m * q, m, span, numbers);
            }
        }
    }
}

// All rows of squares of one m.
fn add_rows(boxes: &[u16], l: Level, span: usize, numbers: &mut [u32; PLACES])
    requires { (span ≤ places) × (length numbers.old ≡ places) × Runs l.k × (0 < l.k) × Wide boxes.now l span }
    ensures { numbers.new ≡ fill_to numbers.old 0
        (squares_of boxes.now l.at (l.pitch * l.m) l.own (l.n * l.m) l.m l.k) span }
{
    add_row::<true>(boxes, l.at, l.own, l.m, l.k, span, numbers);
    let below = l.pitch * l.m;
    let under = l.n * l.m;
    for p in 1..l.k {
        add_row::<false>(
            boxes,
            l.at + p * below,
            l.own + p * under,
            l.m,
            l.k,
            span,
            numbers,
        );
    }
}

// The distances at m, whatever stood in the array before.
pub fn fill(boxes: &[u16], n: usize, m: usize, span: usize, numbers: &mut [u32; PLACES])
    requires { T (block_size_ok n) × Cut n m × (n * m ≤ 256) × (span ≤ (n + 32) * 32 + 33) × (0 < span) × (5 * area n ≤ length boxes.now)
        × Filled n span boxes.now × (length numbers.old ≡ places) }
    ensures { (numbers.new ≡ fill_to numbers.old 0 (squares_at boxes.now n m) span)
        × Numbered 2 boxes.now n m span numbers.new }
{
    add_rows(boxes, boxes::level_of(n, m), span, numbers);
}
