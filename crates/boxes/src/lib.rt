// Sums of squares of pels, of every m × m pels of a block's search window and of the block itself, for m = 1, 2, 4, 8 and 16: all in one array of 16
// bits, each m from the one before. A box of m stands at the place of its first pel: rows of the window are N + 32 places long, those of the block N.

#![tactic(auto)]

ghost use Rattle.std.specs.Prelude.{◌≡◌, ℕ, ◌+◌, ◌-◌, ◌*◌, ◌≤◌, ◌<◌, T, length, get_or};
ghost use Rattle.base.specs.Lists.{fill_to};
ghost use Rattle.boxes.specs.Runs.{carried};
ghost use Rattle.refusals.specs.Refusals.{block_size_ok};
ghost use Rattle.reach.specs.Reach.{reach};
ghost use Rattle.boxes.specs.Boxes.{doubled, Cut, area, span_of, level_of, whole_of, Levels, Boxed};

use frame::Region;
use search::Matching;

// How many places the array has with N up to 16, and with N 32: five times those of the largest window and its block.
pub const SMALL: usize = 5 * (48 * 48 + 16 * 16);

pub const LARGE: usize = 5 * (64 * 64 + 32 * 32);

// The boxes of one m: k × k of them side by side are a block of N. The window's stand at `at`, `pitch` to a row, the block's own at `own`, n to a row.
#[derive(Clone, Copy)]
pub struct Level {
    pub m: usize,
    pub k: usize,
    pub at: usize,
    pub own: usize,
    pub pitch: usize,
    pub n: usize,
}

// ---- boxes

// Boxes of 2m from those of m, `below` being m rows.
fn double(boxes: &mut [u16], from: usize, m: usize, below: usize, to: usize, size: usize)
    requires room { (from + below + m + size ≤ to) × (to + size ≤ length boxes.old) }
    requires small { (u : ℕ) → from ≤ u → u < from + below + m + size → get_or boxes.old u 0 ≤ 16383 }
    ensures { boxes.new ≡ fill_to boxes.old to (doubled boxes.old from m below) size }
{
    for t in 0..size {
        boxes[to + t] = (boxes[from + t] + boxes[from + t + m])
            + (boxes[from + below + t] + boxes[from + below + t + m]);
    }
}

// The places of one m.
fn area(n: usize) -> usize
    requires { n ≤ 32 }
    ensures { result ≡ area n }
{
    (n + 32) * (n + 32) + n * n
}

// The places from the first candidate to the last.
pub fn span(n: usize, r: Region) -> usize
    requires { (n ≤ 32) × (0 < r.rows) × (r.rows ≤ 33) × (r.columns ≤ 33) }
    ensures { result ≡ span_of n r }
{
    (n + 32) * (r.rows - 1) + r.columns
}

// The boxes of 2, 4, 8 and 16, as far as N goes, from those of 1.
fn fill_from_pels(boxes: &mut [u16], n: usize, span: usize)
    requires { T (block_size_ok n) × (span ≤ (n + 32) * 32 + 33) × (5 * area n ≤ length boxes.old)
        × ((u : ℕ) → u < area n → get_or boxes.old u 0 ≤ 255) }
    ensures { Levels (λ u. get_or boxes.old u 0) n span boxes.new
        × ((u : ℕ) → u < area n → get_or boxes.new u 0 ≡ get_or boxes.old u 0) }
{
    let pitch = n + 32;
    let next = area(n);
    let window = pitch * pitch;
    let most = n.min(16);
    let mut from: usize = 0;
    let mut m: usize = 1;
    // m is twice the m before: that is no counter.
    while m < most {
        let rest = n - 2 * m;
        double(
            boxes,
            from,
            m,
            pitch * m,
            from + next,
            span + (pitch + 1) * rest,
        );
        double(
            boxes,
            from + window,
            m,
            n * m,
            from + window + next,
            (n + 1) * rest + 1,
        );
        from += next;
        m = 2 * m;
    }
}

// All boxes of a block and its search window.
pub fn fill(matching: Matching, r: Region, boxes: &mut [u16])
    requires { let n = matching.block.setting.n in (r ≡ reach matching.block) × (5 * area n ≤ length boxes.old)
        × ((u : ℕ) → u < area n → get_or boxes.old u 0 ≤ 255) }
    ensures { let m = matching.entry in Boxed m.older.now m.newer.now m.block boxes.new }
{
    let n = matching.block.setting.n;
    window_copy::copy_window(matching.older, matching.block, r, boxes, 0, n + 32);
    window_copy::copy_block(
        matching.newer,
        matching.block,
        boxes,
        (n + 32) * (n + 32),
        n,
    );
    fill_from_pels(boxes, n, span(n, r));
}

// Where the boxes of m stand.
pub fn level_of(n: usize, m: usize) -> Level
    requires { (n ≤ 32) × Cut n m }
    ensures { result ≡ level_of n m }
{
    let pitch = n + 32;
    let at = refusals::log2_window(m) as usize * area(n);
    Level {
        m,
        k: n / m,
        at,
        own: at + pitch * pitch,
        pitch,
        n,
    }
}

// The sum of 32 × 32 pels, from four boxes of 16.
pub fn whole_32(boxes: &[u16], at: usize, below: usize) -> u32
    requires { at + below + 16 < length boxes.now }
    ensures { result ≡ whole_of boxes.now at below }
{
    (boxes[at] as u32 + boxes[at + 16] as u32)
        + (boxes[at + below] as u32 + boxes[at + below + 16] as u32)
}

// ---- what the distances of all candidates stand on

// Room for the places of all candidates, with N up to 32.
pub const PLACES: usize = 64 * 32 + 40;

// The sums of so many squares in a row, m places apart.
pub fn run_of_squares<const COUNT: usize>(boxes: &[u16], at: usize, m: usize) -> [u16; COUNT]
    requires { (q : ℕ) → q < COUNT → at + m * q < length boxes.now }
    ensures { (length result ≡ COUNT) × ((q : ℕ) → q < COUNT → get_or result q 0 ≡ get_or boxes.now (at + m * q) 0) }
{
    let mut v = [0u16; COUNT];
    for q in 0..COUNT {
        v[q] = boxes[at + m * q];
    }
    v
}

// What a number so far counts for: nothing, where the numbers start afresh.
pub fn carried(fresh: bool, x: u32) -> u32
    ensures { result ≡ carried fresh x }
{
    if fresh { 0 } else { x }
}
