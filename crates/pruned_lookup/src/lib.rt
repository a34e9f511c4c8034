// The distances at m of candidates, looked up in the boxes of a block and its search window: of one candidate, and of all that are listed.

#![tactic(auto)]

ghost use Rattle.std.specs.Prelude.{◌≡◌, ℕ, ◌+◌, ◌*◌, ◌/◌, ◌%◌, ◌≤◌, ◌<◌, length, get_or};
ghost use Rattle.base.specs.Lists.{fill_to};
ghost use Rattle.boxes.specs.Boxes.{level_of};
ghost use Rattle.reach.specs.Reach.{InReach};
ghost use Rattle.pruned_list.specs.Listed.{spot_of, renewed};
ghost use Rattle.pruned_lookup.specs.Lookup.{box_run, box_rows, box_distance, side_of, place_on, looked_up, Distanced, Covered, Near};

use boxes::Level;
use frame::Region;

// The differences of k squares in a row, those of the window from place a on and the block's own from place o on.
fn run_at(boxes: &[u16], measure: u32, m: usize, a: usize, o: usize, k: usize) -> u64
    requires { (k ≤ 32) × ((q : ℕ) → q < k → (a + q * m < length boxes.now) × (o + q * m < length boxes.now)) }
    ensures { (result ≡ box_run measure boxes.now m a o k) × (result ≤ 4294836225 * k) }
{
    let mut sum: u64 = 0;
    for q in 0..k {
        let step = q * m;
        sum += measures::sum_difference(measure, boxes[o + step] as u32, boxes[a + step] as u32);
    }
    sum
}

// The same, with code of its own for each measure.
fn row_at(boxes: &[u16], measure: u32, m: usize, a: usize, o: usize, k: usize) -> u64
    requires { (k ≤ 32) × ((q : ℕ) → q < k → (a + q * m < length boxes.now) × (o + q * m < length boxes.now)) }
    ensures { (result ≡ box_run measure boxes.now m a o k) × (result ≤ 4294836225 * k) }
{
    if measure == measures::ABSOLUTE {
        return run_at(boxes, measures::ABSOLUTE, m, a, o, k);
    }
    run_at(boxes, measures::SQUARES, m, a, o, k)
}

// The differences of all squares of the candidate at place t.
fn rows_at(boxes: &[u16], measure: u32, l: Level, t: usize) -> u64
    requires { Covered boxes.now l t }
    ensures { (result ≡ box_rows measure boxes.now l t) × (result ≤ 137434759200 * l.k) }
{
    let m = l.m;
    let k = l.k;
    let pitch = l.pitch;
    let n = l.n;
    let a = l.at + t;
    let o = l.own;
    let mut sum: u64 = 0;
    for p in 0..k {
        let down = p * m;
        sum += row_at(boxes, measure, m, a + pitch * down, o + n * down, k);
    }
    sum
}

// The side of the boxes that a distance at m is looked up in: there are none of 32.
fn side_of(m: usize) -> usize
    ensures { result ≡ side_of m }
{
    if m == 32 {
        return 16;
    }
    m
}

// The distance at m of the candidate at place t. At 32 the block is one square, of four boxes of 16.
fn distance_at(boxes: &[u16], measure: u32, m: usize, l: Level, t: usize) -> u64
    requires { Near boxes.now l.n m t × (l ≡ level_of l.n (side_of m)) }
    ensures { (result ≡ box_distance measure boxes.now m l t) × (result < 70368744177664) }
{
    if m == 32 {
        return measures::sum_difference(
            measure,
            boxes::whole_32(boxes, l.own, 512),
            boxes::whole_32(boxes, l.at + t, 1024),
        );
    }
    rows_at(boxes, measure, l, t)
}

// The place of a spot in rows of so many places, the region's first at place 0.
fn place_of(spot: usize, pitch: usize, r: Region) -> usize
    requires { InReach r (spot / 64) (spot % 64) × (r.rows ≤ 33) × (r.columns ≤ 33) × (pitch ≤ 64) }
    ensures { (result ≡ place_on pitch r spot) × (result ≤ pitch * 32 + 32) }
{
    pitch * (spot / 64 - r.top) + (spot % 64 - r.left)
}

// The first so many keys with their candidates' distances at m.
pub fn fill(
    boxes: &[u16],
    measure: u32,
    n: usize,
    m: usize,
    r: Region,
    keys: &mut [u64],
    count: usize,
)
    requires near { Near boxes.now n m 0 × (r.rows ≤ 33) × (r.columns ≤ 33) × (count ≤ length keys.old) }
    requires reached { (i : ℕ) → i < count → InReach r (spot_of (get_or keys.old i 0) / 64) (spot_of (get_or keys.old i 0) % 64) }
    ensures { (keys.new ≡ fill_to keys.old 0 (λ i.
        renewed (get_or keys.old i 0) (looked_up measure boxes.now n m r (spot_of (get_or keys.old i 0)))) count)
        × Distanced measure boxes.now n m r keys.old count keys.new }
{
    let l = boxes::level_of(n, side_of(m));
    let pitch = n + 32;
    for i in 0..count {
        let key = keys[i];
        let t = place_of(pruned_list::spot_of(key), pitch, r);
        keys[i] = pruned_list::renewed(key, distance_at(boxes, measure, m, l, t));
    }
}
