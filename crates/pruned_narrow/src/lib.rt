// The distances of all candidates at once, by absolute differences. The candidate at row i and column j of its reach stands at place (N + 32) i + j;
// places between rows are computed too, and never looked at. Blocks of 16 × 16 pels at most are added up in 16 bits, and N 32 is four of them.

#![tactic(auto)]

ghost use Rattle.std.specs.Prelude.{◌≡◌, ℕ, ◌+◌, ◌-◌, ◌*◌, ◌≤◌, ◌<◌, T, length, get_or};
ghost use Rattle.base.specs.Lists.{fill_to};
ghost use Rattle.base.specs.Sum.{sum_to};
ghost use Rattle.refusals.specs.Refusals.{block_size_ok};
ghost use Rattle.boxes.specs.Boxes.{Cut, area, Filled};
ghost use Rattle.boxes.specs.Distances.{Resolution, Numbered};
ghost use Rattle.boxes.specs.Runs.{places, carried, Runs, Inside};
ghost use Rattle.pruned_narrow.specs.Narrow.{row_sum, row_more, turned, distance_of, distance_at, whole_at, number_of, Squared};

use boxes::{Level, PLACES};

// What COUNT squares in a row of an older block, the first at place `at`, have more than the newer ones.
fn surplus<const COUNT: usize>(boxes: &[u16], at: usize, m: usize, own: &[u16; COUNT]) -> u16
    requires { ((q : ℕ) → q < COUNT → at + m * q < length boxes.now) × (row_sum boxes.now at m COUNT ≤ 65535) }
    ensures { result ≡ sum_to (λ q. get_or boxes.now (at + m * q) 0 - get_or own.now q 0) COUNT }
{
    let mut sum: u16 = 0;
    for q in 0..COUNT {
        sum += boxes[at + m * q].saturating_sub(own[q]);
    }
    sum
}

// Adds that of the older blocks of all candidates.
fn add_run<const COUNT: usize>(
    boxes: &[u16],
    at: usize,
    own: usize,
    m: usize,
    size: usize,
    part: &mut [u16; PLACES],
)
    requires { (size ≤ places) × (length part.old ≡ places) × (COUNT ≤ 4) × (0 < COUNT) × Inside boxes.now at own m COUNT size
        × ((t : ℕ) → t < size → get_or part.old t 0 + row_sum boxes.now (at + t) m COUNT ≤ 65535) }
    ensures { part.new
        ≡ fill_to part.old 0 (λ t. get_or part.old t 0 + row_more boxes.now (at + t) own m COUNT) size }
{
    let v = boxes::run_of_squares::<COUNT>(boxes, own, m);
    for t in 0..size {
        part[t] = part[t] + surplus(boxes, at + t, m, &v);
    }
}

// The same for k squares: for 1, 2 and 4 at a time the compiler makes code of its own.
fn add_row(
    boxes: &[u16],
    at: usize,
    own: usize,
    m: usize,
    k: usize,
    size: usize,
    part: &mut [u16; PLACES],
)
    requires { (size ≤ places) × (length part.old ≡ places) × Runs k × Inside boxes.now at own m k size
        × ((t : ℕ) → t < size → get_or part.old t 0 + row_sum boxes.now (at + t) m k ≤ 65535) }
    ensures { part.new
        ≡ fill_to part.old 0 (λ t. get_or part.old t 0 + row_more boxes.now (at + t) own m k) size }
{
    match k {
        1 => add_run::<1>(boxes, at, own, m, size, part),
        2 => add_run::<2>(boxes, at, own, m, size, part),
        _ => {
            for run in 0..k / 4 {
                let q = 4 * run;
                add_run::<4>(boxes, at + m * q, own + m * q, m, size, part);
            }
        }
    }
}

// From what the older sums have more, x, to the distance: x and what the newer ones have more. v is the newer block's sum. Adds the distances to the numbers,
// or stores them.
fn add_turned(
    boxes: &[u16],
    whole: usize,
    v: u16,
    size: usize,
    part: &[u16; PLACES],
    numbers: &mut [u32; PLACES],
    fresh: bool,
)
    requires { (size ≤ places) × (length part.now ≡ places) × (length numbers.old ≡ places) × (whole + size ≤ length boxes.now)
        × ((t : ℕ) → t < size → (get_or part.now t 0 ≤ get_or boxes.now (whole + t) 0)
        × (get_or boxes.now (whole + t) 0 ≤ get_or part.now t 0 + v)
        × (turned (get_or part.now t 0) (get_or boxes.now (whole + t) 0) v ≤ 65535))
        × ((t : ℕ) → t < size → carried fresh (get_or numbers.old t 0) ≤ 1000000) }
    ensures { numbers.new ≡ fill_to numbers.old 0 (λ t. carried fresh (get_or numbers.old t 0)
        + turned (get_or part.now t 0) (get_or boxes.now (whole + t) 0) v) size }
{
    for t in 0..size {
        let x = part[t];
        let d = (x + (v - (boxes[whole + t] - x))) as u32;
        numbers[t] = boxes::carried(fresh, numbers[t]) + d;
    }
}

// The distances of a block of k × k squares, of 16 × 16 pels at most, that begins `at` and `own` places behind the first; w is the level of its own sum. Whether
// the numbers start afresh is read as the runs go on, for as a const parameter the compiler would make this function twice.
fn add_block(
    boxes: &[u16],
    l: Level,
    k: usize,
    at: usize,
    own: usize,
    w: Level,
    size: usize,
    numbers: &mut [u32; PLACES],
    fresh: bool,
)
    requires { (size ≤ places) × (length numbers.old ≡ places) × Runs k × Squared boxes.now l k at own w size
        × ((t : ℕ) → t < size → carried fresh (get_or numbers.old t 0) ≤ 1000000) }
    ensures { numbers.new ≡ fill_to numbers.old 0 (λ t. carried fresh (get_or numbers.old t 0)
        + distance_of boxes.now (l.at + at) (l.pitch * l.m) (l.own + own) (l.n * l.m) l.m k t) size }
{
    let mut part = [0u16; PLACES];
    let mut a = l.at + at;
    let mut o = l.own + own;
    for _p in 0..k {
        add_row(boxes, a, o, l.m, k, size, &mut part);
        a += l.pitch * l.m;
        o += l.n * l.m;
    }
    add_turned(
        boxes,
        w.at + at,
        boxes[w.own + own],
        size,
        &part,
        numbers,
        fresh,
    );
}

// With N 32, block by block of 16 × 16.
fn fill_quarters(boxes: &[u16], m: usize, size: usize, numbers: &mut [u32; PLACES])
    requires { Cut 32 m × (size ≤ 2081) × (0 < size) × (5 * area 32 ≤ length boxes.now) × Filled 32 size boxes.now
        × (length numbers.old ≡ places) }
    ensures { numbers.new ≡ fill_to numbers.old 0 (distance_at boxes.now 32 m) size }
{
    let l = boxes::level_of(32, m);
    let h = boxes::level_of(32, 16);
    let k = l.k / 2;
    add_block(boxes, l, k, 0, 0, h, size, numbers, true);
    add_block(boxes, l, k, 16, 16, h, size, numbers, false);
    add_block(boxes, l, k, 1024, 512, h, size, numbers, false);
    add_block(boxes, l, k, 1040, 528, h, size, numbers, false);
}

// At m = 32, by the sums of whole blocks.
fn fill_32(boxes: &[u16], size: usize, numbers: &mut [u32; PLACES])
    requires { (size ≤ 2081) × (5 * area 32 ≤ length boxes.now) × (length numbers.old ≡ places) }
    ensures { numbers.new ≡ fill_to numbers.old 0 (whole_at boxes.now) size }
{
    let h = boxes::level_of(32, 16);
    let at = h.at;
    let v = boxes::whole_32(boxes, h.own, 512);
    for t in 0..size {
        numbers[t] = v.abs_diff(boxes::whole_32(boxes, at + t, 1024));
    }
}

// The distances at m.
pub fn fill(boxes: &[u16], n: usize, m: usize, span: usize, numbers: &mut [u32; PLACES])
    requires { T (block_size_ok n) × Resolution n m × (span ≤ (n + 32) * 32 + 33) × (0 < span) × (5 * area n ≤ length boxes.now)
        × Filled n span boxes.now × (length numbers.old ≡ places) }
    ensures { (numbers.new ≡ fill_to numbers.old 0 (number_of boxes.now n m) span)
        × Numbered 1 boxes.now n m span numbers.new }
{
    if m == 32 {
        fill_32(boxes, span, numbers);
        return;
    }
    if n == 32 {
        fill_quarters(boxes, m, span, numbers);
        return;
    }
    let l = boxes::level_of(n, m);
    add_block(
        boxes,
        l,
        l.k,
        0,
        0,
        boxes::level_of(n, n),
        span,
        numbers,
        true,
    );
}
