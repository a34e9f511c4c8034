// Search 1, full: the candidate of least distortion; equals go to the earlier in preference order. Block and search window are copied once, and the
// candidates measured row by row of the window, or column by column for N 8 and absolute differences. Of each the distortion and the place in the order
// are one number, its key: the least key wins, in whatever order the candidates come.

#![tactic(auto)]

ghost use Rattle.std.specs.Prelude.{◌≡◌, ◌+◌, ◌-◌, ◌*◌, ◌≤◌, ◌<◌, min, T, length};
ghost use Rattle.base.specs.Lists.{list_to};
ghost use Rattle.measures.specs.Measures.{measure_of};
ghost use Rattle.refusals.specs.Refusals.{block_size_ok};
ghost use Rattle.distortion.specs.Blocks.{UpTo, rows_from, kernel_of, size_by, measure_by};
ghost use Rattle.search.specs.Matchings.{pair_in};
ghost use Rattle.reach.specs.Reach.{Standing, reach};
ghost use Rattle.reach.specs.Keys.{order_code, code_of};
ghost use Rattle.full.specs.Full.{full_search};
ghost use Rattle.full.specs.Rows.{key_in_copy, least_from, window_copy, key_at, Around, Lowered, LeastKey};
ghost use Rattle.full.specs.Columns.{strip_of, Twice, key_in_strip, key_by_column};

use frame::{Region, SearchBlock};
use search::{Matching, SearchResult};

// The copies of a block and its search window, in rows of window_copy::ROW places.
const WINDOW: usize = window_copy::ROW * window_copy::ROW;

const BLOCK: usize = frame::LARGEST_N * window_copy::ROW;

// Eight columns of the copied window, row after row, and a copied block of N 8 twice.
const STRIP: usize = 320;

const TWICE: usize = 128;

// ---- keys

// The least of a key and that of a distortion and a place in the order.
fn lesser_key(least: u64, distortion: u32, code: u64) -> u64
    requires { code < 262144 }
    ensures { result ≡ min least (distortion * 262144 + code) }
{
    least.min(distortion as u64 * 262144 + code)
}

// ---- rows

// The distortion of the copied block against the older block at place `at` of the copied window, as far as the ceiling goes.
fn sum_at(window: &[u8; WINDOW], block: &[u8; BLOCK], kernel: usize, at: usize, ceiling: u32) -> u32
    requires { (length window.now ≡ 4096) × (length block.now ≡ 2048) × (kernel < 128) × T (block_size_ok (size_by kernel)) × (at < 2081) }
    ensures { UpTo ceiling (rows_from (measure_of (measure_by kernel)) window.now block.now 64 0 at (size_by kernel) (size_by kernel)) result }
{
    if kernel == 16 {
        return window_copy::copy_sum(window, block, at, ceiling);
    }
    distortion::distortion_from(window, block, window_copy::ROW, kernel, 0, at, ceiling)
}

// The least of a key and those of row i, columns `from` up to before `to`: each distortion is measured with the least so far as ceiling.
fn row_least(
    window: &[u8; WINDOW],
    block: &[u8; BLOCK],
    kernel: usize,
    i: usize,
    from: usize,
    to: usize,
    codes: &[u64; reach::SIDE],
    best: u64,
) -> u64
    requires { (length window.now ≡ 4096) × (length block.now ≡ 2048) × (kernel < 128) × T (block_size_ok (size_by kernel)) × (i < 33) × (from ≤ to) × (to ≤ 33)
        × (codes.now ≡ list_to (code_of 1) 33) × (best < 1125899906842624) }
    ensures { result ≡ least_from best (key_in_copy (measure_by kernel) (size_by kernel) window.now block.now i) from (to - from) }
{
    let down = reach::code_of(64, i);
    let mut least = best;
    for j in from..to {
        let d = sum_at(
            window,
            block,
            kernel,
            window_copy::ROW * i + j,
            (least / 262144) as u32,
        );
        least = lesser_key(least, d, down + codes[j]);
    }
    least
}

// The same of a row that may lie out of reach: it adds nothing then.
fn row_in_reach(
    window: &[u8; WINDOW],
    block: &[u8; BLOCK],
    kernel: usize,
    i: usize,
    r: Region,
    codes: &[u64; reach::SIDE],
    best: u64,
) -> u64
    requires { (length window.now ≡ 4096) × (length block.now ≡ 2048) × (kernel < 128) × T (block_size_ok (size_by kernel)) × Around r
        × (codes.now ≡ list_to (code_of 1) 33) × (best < 1125899906842624) }
    ensures { Lowered (key_in_copy (measure_by kernel) (size_by kernel) window.now block.now) r i best result }
{
    if i < r.top {
        return best;
    }
    if i >= r.top + r.rows {
        return best;
    }
    row_least(
        window,
        block,
        kernel,
        i,
        r.left,
        r.left + r.columns,
        codes,
        best,
    )
}

// The least of all keys in reach, from that of (0,0) on: first the block's own row, then one above and one below by turns, for paper moves little.
fn rows_least(
    window: &[u8; WINDOW],
    block: &[u8; BLOCK],
    kernel: usize,
    r: Region,
    first: u64,
) -> u64
    requires { (length window.now ≡ 4096) × (length block.now ≡ 2048) × (kernel < 128) × T (block_size_ok (size_by kernel)) × Around r
        × (first ≡ key_in_copy (measure_by kernel) (size_by kernel) window.now block.now 16 16) × (first < 1125899906842624) }
    ensures { LeastKey (key_in_copy (measure_by kernel) (size_by kernel) window.now block.now) r result }
{
    let codes = reach::codes_of(1);
    let mut best = row_in_reach(window, block, kernel, 16, r, &codes, first);
    for t in 1..17 {
        let above = row_in_reach(window, block, kernel, 16 - t, r, &codes, best);
        best = row_in_reach(window, block, kernel, 16 + t, r, &codes, above);
    }
    best
}

// The search window, each row and column of it in that of window 16 where the older block of its vector begins.
fn copy_window(older: &[u8], b: SearchBlock, r: Region, window: &mut [u8; WINDOW])
    requires { Standing b × (b.setting.n ≤ 32) × (b.setting.height * b.setting.width ≤ length older.now) × (r ≡ reach b) × (length window.old ≡ 4096) }
    ensures { window.new ≡ window_copy older.now b window.old }
{
    window_copy::copy_window(
        older,
        b,
        r,
        window,
        window_copy::ROW * r.top + r.left,
        window_copy::ROW,
    );
}

// The least key of all candidates, from that of (0,0) on.
fn by_rows(matching: Matching, r: Region, first: u64) -> u64
    requires { let m = matching in (r ≡ reach m.block) × (first ≡ key_at m.older.now m.newer.now m.block 16 16) × (first < 1125899906842624) }
    ensures { let m = matching.entry in LeastKey (key_at m.older.now m.newer.now m.block) (reach m.block) result }
{
    let s = matching.block.setting;
    let mut window = [0u8; WINDOW];
    let mut block = [0u8; BLOCK];
    copy_window(matching.older, matching.block, r, &mut window);
    window_copy::copy_block(
        matching.newer,
        matching.block,
        &mut block,
        0,
        window_copy::ROW,
    );
    rows_least(
        &window,
        &block,
        distortion::kernel(s.measure, s.n),
        r,
        first,
    )
}

// ---- columns

// Eight columns of the copied window, from column j on, row after row without gaps.
fn copy_strip(window: &[u8; WINDOW], j: usize, strip: &mut [u8; STRIP])
    requires { (length window.now ≡ 4096) × (j < 33) × (length strip.old ≡ 320) }
    ensures { strip.new ≡ strip_of window.now j }
{
    for i in 0..40usize {
        for c in 0..8usize {
            strip[8 * i + c] = window[64 * i + j + c];
        }
    }
}

// The least of a key and that of row i of column j, whose place in the order is given. Which of the block's two copies is read goes by the column.
fn with_row(strip: &[u8], block: &[u8], j: usize, i: usize, code: u64, least: u64) -> u64
    requires { (length strip.now ≡ 320) × (length block.now ≡ 128) × Twice block.now × (j < 33) × (i < 33) × (code ≡ order_code i j) }
    ensures { result ≡ min least (key_in_strip strip.now block.now j i) }
{
    let d = distortion::four_rows(
        strip,
        block,
        measures::ABSOLUTE,
        16,
        16,
        64 * (j % 2),
        8 * i,
        16,
    );
    lesser_key(least, d, code)
}

// The least of a key and those of column j, rows `from` up to before `to`, whose older blocks are 64 pels of the strip from 8 × row on: four rows of 16
// are eight rows of 8. Two rows are measured at a time, one of either half. Which of the block's two copies is read goes by turns, so that the compiler
// leaves the reading in the loop, where it has one instruction for 16 differences.
fn column_least(
    strip: &[u8],
    block: &[u8],
    j: usize,
    from: usize,
    to: usize,
    codes: &[u64; reach::SIDE],
    best: u64,
) -> u64
    requires { (length strip.now ≡ 320) × (length block.now ≡ 128) × Twice block.now × (j < 33) × (from ≤ to) × (to ≤ 33)
        × (codes.now ≡ list_to (code_of 64) 33) }
    ensures { result ≡ least_from best (key_in_strip strip.now block.now j) from (to - from) }
{
    let across = reach::code_of(1, j);
    let middle = (from + to) / 2;
    let mut least = best;
    let mut other = best;
    let half = middle - from;
    for i in from..middle {
        let k = i + half;
        let at = 64 * (i % 2);
        let d = distortion::four_rows(strip, block, measures::ABSOLUTE, 16, 16, at, 8 * i, 16);
        let e = distortion::four_rows(strip, block, measures::ABSOLUTE, 16, 16, at, 8 * k, 16);
        least = lesser_key(least, d, across + codes[i]);
        other = lesser_key(other, e, across + codes[k]);
    }
    let last = middle + half;
    if last < to {
        other = with_row(strip, block, j, last, across + codes[last], other);
    }
    least.min(other)
}

// The least of all keys in reach, from that of (0,0) on, column by column.
fn columns_least(window: &[u8; WINDOW], block: &[u8; TWICE], r: Region, first: u64) -> u64
    requires { (length window.now ≡ 4096) × (length block.now ≡ 128) × Twice block.now × Around r × (first ≡ key_by_column window.now block.now 16 16) }
    ensures { LeastKey (key_by_column window.now block.now) r result }
{
    let bottom = r.top + r.rows;
    let right = r.left + r.columns;
    let codes = reach::codes_of(64);
    let mut strip = [0u8; STRIP];
    let mut best = first;
    for j in r.left..right {
        copy_strip(window, j, &mut strip);
        best = column_least(&strip, block, j, r.top, bottom, &codes, best);
    }
    best
}

// The least key of all candidates, from that of (0,0) on, for N 8 and absolute differences.
fn by_columns(matching: Matching, r: Region, first: u64) -> u64
    requires { let m = matching in (r ≡ reach m.block) × (first ≡ key_at m.older.now m.newer.now m.block 16 16)
        × (kernel_of m.block.setting.measure m.block.setting.n ≡ 8) }
    ensures { let m = matching.entry in LeastKey (key_at m.older.now m.newer.now m.block) (reach m.block) result }
{
    let mut window = [0u8; WINDOW];
    let mut block = [0u8; TWICE];
    copy_window(matching.older, matching.block, r, &mut window);
    let width = matching.block.setting.width;
    let here = matching.block.y * width + matching.block.x;
    // N is 8, written out here: that is quicker where the window is small.
    window_copy::copy_rows(matching.newer, width, here, 8, 8, &mut block, 0, 8);
    window_copy::copy_rows(matching.newer, width, here, 8, 8, &mut block, 64, 8);
    columns_least(&window, &block, r, first)
}

// ---- the search

// The least key of all candidates. None is less than that of (0,0) with a distortion of 0.
fn least_key(matching: Matching, r: Region) -> u64
    requires { r ≡ reach matching.block }
    ensures { let m = matching.entry in LeastKey (key_at m.older.now m.newer.now m.block) (reach m.block) result × (result < 1125899906842624) }
{
    let b = matching.block;
    let d = distortion::block_distortion(
        matching.older,
        matching.newer,
        b.setting,
        b.y,
        b.x,
        b.y,
        b.x,
    );
    let first = d as u64 * 262144 + 1040;
    if d == 0 {
        return first;
    }
    if distortion::kernel(b.setting.measure, b.setting.n) == 8 {
        return by_columns(matching, r, first);
    }
    by_rows(matching, r, first)
}

// Search 1 of one block.
pub fn search(matching: Matching) -> SearchResult
    ensures { let m = matching.entry in result ≡ full_search (pair_in m) m.block.w m.block.y m.block.x }
{
    let r = reach::reach(matching.block);
    let key = least_key(matching, r);
    SearchResult {
        refusal: 0,
        dy: signed::unbiased((key / 64 % 64) as usize),
        dx: signed::unbiased((key % 64) as usize),
        distortion: (key / 262144) as u32,
        counts: search::only_at_one((r.rows * r.columns) as u32),
        dropped: 0,
    }
}
