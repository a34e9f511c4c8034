// Distortion: the sum of the pel differences of two blocks, by a measure and under a ceiling.

#![tactic(auto)]

ghost use Rattle.std.specs.Prelude.{◌≡◌, ◌+◌, ◌*◌, ◌≤◌, ◌<◌, length};
ghost use Rattle.measures.specs.Measures.{measure_of};
ghost use Rattle.distortion.specs.Blocks.{block_at, distortion_by, capped, rows_apart, rows_up_to, halves_up_to, Rows, BlockRows, UpTo, BlockSum, kernel_of, size_by, measure_by, Comparable};

use frame::Setting;

// Four rows of n pels, the first at places a and b: the newer ones begin `across` pels apart, the older ones `width` pels. p and q are the places of
// the pel at row i and column j.
pub fn four_rows(
    older: &[u8],
    newer: &[u8],
    measure: u32,
    across: usize,
    width: usize,
    a: usize,
    b: usize,
    n: usize,
) -> u32
    requires { (a + 3 * across + n ≤ length newer.now) × (b + 3 * width + n ≤ length older.now) × (n ≤ 64) × (across ≤ 1024) × (width ≤ 1024) }
    ensures { (result ≡ rows_apart (measure_of measure) older.now newer.now across width a b n 4) × (result ≤ 4 * (n * (measure_of measure).most)) }
{
    let mut sum: u32 = 0;
    let mut p = a;
    let mut q = b;
    for _i in 0..4usize {
        for _j in 0..n {
            sum += measures::pel_difference(measure, newer[p], older[q]);
            p += 1;
            q += 1;
        }
        p = p + across - n;
        q = q + width - n;
    }
    sum
}

// 4 × groups rows of two frames that begin with the blocks, four at a time, as far as the ceiling goes. So a row's place is the same number in both.
fn rows_by_four(
    older: &[u8],
    newer: &[u8],
    measure: u32,
    width: usize,
    n: usize,
    groups: usize,
    ceiling: u32,
) -> u32
    requires { Rows older.now newer.now width n groups }
    ensures { result ≡ rows_up_to (measure_of measure) ceiling older.now newer.now width 0 0 n groups }
{
    let down = 4 * width;
    let mut sum: u32 = 0;
    let mut p: usize = 0;
    for _g in 0..groups {
        if ceiling < sum {
            return sum;
        }
        sum += four_rows(older, newer, measure, width, width, p, p, n);
        p += down;
    }
    sum
}

// The rows of a block of 32, four at a time, the left half of them and then the right one, as far as the ceiling goes: for 16 pels the compiler has
// better code than for 32. p is the place of this half and q that of the next.
fn rows_by_halves(older: &[u8], newer: &[u8], measure: u32, width: usize, ceiling: u32) -> u32
    requires { Rows older.now newer.now width 32 8 }
    ensures { result ≡ halves_up_to (measure_of measure) ceiling older.now newer.now width 0 0 16 }
{
    let down = 4 * width;
    let mut total: u32 = 0;
    let mut p: usize = 0;
    let mut q: usize = 16;
    for _g in 0..16usize {
        if ceiling < total {
            return total;
        }
        total += four_rows(older, newer, measure, width, width, p, p, 16);
        let below = p + down;
        p = q;
        q = below;
    }
    total
}

// Which code measures a block: N for absolute differences, N + 64 for squares. For each the compiler makes code of its own; one number says both, so that
// a call has no more numbers than registers take.
pub fn kernel(measure: u32, n: usize) -> usize
    requires { n < 64 }
    ensures { result ≡ kernel_of measure n }
{
    if measure == measures::ABSOLUTE {
        return n;
    }
    n + 64
}

// The distortion of the newer block that begins at place a against the older block that begins at place b, as far as the ceiling goes: its
// rows are added four at a time until the sum has reached the ceiling. N and the measure are a kernel's. Each frame is cut where its block begins,
// so that a pel's place is row × width + column.
pub fn distortion_from(
    older: &[u8],
    newer: &[u8],
    width: usize,
    kernel: usize,
    a: usize,
    b: usize,
    ceiling: u32,
) -> u32
    requires { (kernel < 128) × BlockRows older.now newer.now width (size_by kernel) a b }
    ensures { BlockSum (measure_by kernel) ceiling older.now newer.now width (size_by kernel) a b result }
{
    let here = &newer[a..];
    let there = &older[b..];
    if kernel < 64 {
        if kernel == 16 {
            return rows_by_four(there, here, measures::ABSOLUTE, width, 16, 4, ceiling);
        }
        if kernel == 8 {
            return rows_by_four(there, here, measures::ABSOLUTE, width, 8, 2, ceiling);
        }
        if kernel == 4 {
            return rows_by_four(there, here, measures::ABSOLUTE, width, 4, 1, ceiling);
        }
        return rows_by_halves(there, here, measures::ABSOLUTE, width, ceiling);
    }
    if kernel == 80 {
        return rows_by_four(there, here, measures::SQUARES, width, 16, 4, ceiling);
    }
    if kernel == 72 {
        return rows_by_four(there, here, measures::SQUARES, width, 8, 2, ceiling);
    }
    if kernel == 68 {
        return rows_by_four(there, here, measures::SQUARES, width, 4, 1, ceiling);
    }
    rows_by_halves(there, here, measures::SQUARES, width, ceiling)
}

// What a sum as far as a ceiling goes tells of the distortion: what it is where it is at most the ceiling, else only that it is over.
pub fn cap(sum: u32, ceiling: u32) -> Option<u32>
    ensures { result ≡ capped ceiling sum }
{
    if sum > ceiling {
        return None;
    }
    Some(sum)
}

// The distortion of the newer block at row y, column x against the older block at row r, column c, as far as the ceiling goes.
fn block_sum(
    older: &[u8],
    newer: &[u8],
    s: Setting,
    y: usize,
    x: usize,
    r: usize,
    c: usize,
    ceiling: u32,
) -> u32
    requires { Comparable older.now newer.now s y x r c }
    ensures { UpTo ceiling (distortion_by (measure_of s.measure) s.n (block_at newer.now s.width y x) (block_at older.now s.width r c)) result }
{
    let width = s.width;
    let a = y * width + x;
    let b = r * width + c;
    distortion_from(older, newer, width, kernel(s.measure, s.n), a, b, ceiling)
}

// The same under the ceiling.
pub fn block_up_to(
    older: &[u8],
    newer: &[u8],
    s: Setting,
    y: usize,
    x: usize,
    r: usize,
    c: usize,
    ceiling: u32,
) -> Option<u32>
    requires { Comparable older.now newer.now s y x r c }
    ensures { result ≡ capped ceiling (distortion_by (measure_of s.measure) s.n (block_at newer.now s.width y x) (block_at older.now s.width r c)) }
{
    cap(block_sum(older, newer, s, y, x, r, c, ceiling), ceiling)
}

// The same to its last row, with a ceiling that no distortion passes.
pub fn block_distortion(
    older: &[u8],
    newer: &[u8],
    s: Setting,
    y: usize,
    x: usize,
    r: usize,
    c: usize,
) -> u32
    requires { Comparable older.now newer.now s y x r c }
    ensures { result ≡ distortion_by (measure_of s.measure) s.n (block_at newer.now s.width y x) (block_at older.now s.width r c) }
{
    block_sum(older, newer, s, y, x, r, c, 4294967295)
}
