// Rows of a frame copied into an array, which begin as many places apart there as the caller says: a block's search window, or the block itself. A copy
// is read faster than its frame where it is measured many times. And whether such rows have one grey.

#![tactic(auto)]

ghost use Rattle.std.specs.Prelude.{◌≡◌, ℕ, ◌+◌, ◌-◌, ◌*◌, ◌≤◌, ◌<◌, length, get_or};
ghost use Rattle.base.specs.Lists.{fill_to, stored_rows};
ghost use Rattle.reach.specs.Reach.{Standing, reach};
ghost use Rattle.window_copy.specs.Copy.{copy_up_to};
ghost use Rattle.window_copy.specs.Grey.{grey_row, one_grey};

use frame::{Region, SearchBlock};

// The places of a copy's row: a search window has N + 2 × 16 columns at most.
pub const ROW: usize = 64;

// A number that a pel is copied to.
pub trait Pel: Copy {
    ghost of_pel: { ℕ → Self };

    fn of(pel: u8) -> Self
        ensures { result ≡ of_pel pel };
}

impl Pel for u8 {
    ghost of_pel = { λ pel. pel };

    fn of(pel: u8) -> u8 {
        pel
    }
}

impl Pel for u16 {
    ghost of_pel = { λ pel. pel };

    fn of(pel: u8) -> u16 {
        pel as u16
    }
}

// So many pels from place `from` on, copied to place `at` on.
fn copy_row<T: Pel>(frame: &[u8], from: usize, columns: usize, copy: &mut [T], at: usize)
    requires { (from + columns ≤ length frame.now) × (at + columns ≤ length copy.old) }
    ensures { copy.new ≡ fill_to copy.old at (λ j. T.of_pel (get_or frame.now (from + j) 0)) columns }
{
    for j in 0..columns {
        copy[at + j] = T::of(frame[from + j]);
    }
}

// So many rows of a frame, from place `from` on, copied to place `at` on, where rows begin `pitch` places apart: for numbers `copied_rows`. The last clause
// asks nothing of numbers: no slice of items that take memory is longer.
pub fn copy_rows<T: Pel>(
    frame: &[u8],
    width: usize,
    from: usize,
    rows: usize,
    columns: usize,
    copy: &mut [T],
    at: usize,
    pitch: usize,
)
    requires { (from + rows * width + columns ≤ length frame.now + width) × (at + rows * pitch + columns ≤ length copy.old + pitch)
        × (width ≤ 1024) × (pitch ≤ 64) × (rows ≤ 64) × (length copy.old ≤ 9223372036854775807) }
    ensures { copy.new ≡ stored_rows (λ i j. T.of_pel (get_or frame.now (from + i * width + j) 0)) columns copy.old at pitch rows }
{
    let mut p = from;
    let mut k = at;
    for _i in 0..rows {
        copy_row(frame, p, columns, copy, k);
        p += width;
        k += pitch;
    }
}

// A block's search window, copied to place `at` on, where rows begin `pitch` places apart.
pub fn copy_window<T: Pel>(
    older: &[u8],
    b: SearchBlock,
    r: Region,
    copy: &mut [T],
    at: usize,
    pitch: usize,
)
    requires { Standing b × (b.setting.n ≤ 32) × (b.setting.height * b.setting.width ≤ length older.now) × (r ≡ reach b) × (pitch ≤ 64)
        × (at + (r.rows + b.setting.n - 1) * pitch + (r.columns + b.setting.n - 1) ≤ length copy.old + pitch) × (length copy.old ≤ 9223372036854775807) }
    ensures { copy.new ≡ stored_rows (λ i j. T.of_pel (get_or older.now ((b.y + r.top - 16) * b.setting.width + (b.x + r.left - 16) + i * b.setting.width + j) 0))
        (r.columns + b.setting.n - 1) copy.old at pitch (r.rows + b.setting.n - 1) }
{
    let s = b.setting;
    let n = s.n;
    let width = s.width;
    let row = b.y + r.top - 16;
    let column = b.x + r.left - 16;
    copy_rows(
        older,
        width,
        row * width + column,
        r.rows + n - 1,
        r.columns + n - 1,
        copy,
        at,
        pitch,
    );
}

// The block itself, likewise.
pub fn copy_block<T: Pel>(newer: &[u8], b: SearchBlock, copy: &mut [T], at: usize, pitch: usize)
    requires { Standing b × (b.setting.n ≤ 32) × (b.setting.height * b.setting.width ≤ length newer.now) × (pitch ≤ 64)
        × (at + b.setting.n * pitch + b.setting.n ≤ length copy.old + pitch) × (length copy.old ≤ 9223372036854775807) }
    ensures { copy.new ≡ stored_rows (λ i j. T.of_pel (get_or newer.now (b.y * b.setting.width + b.x + i * b.setting.width + j) 0)) b.setting.n copy.old at pitch
        b.setting.n }
{
    let s = b.setting;
    copy_rows(
        newer,
        s.width,
        b.y * s.width + b.x,
        s.n,
        s.n,
        copy,
        at,
        pitch,
    );
}

// The distortion by absolute differences of a copied 16 × 16 block against the older block that begins at place `at` of a copied search window, as far
// as the ceiling goes, which is looked at half way down.
pub fn copy_sum(window: &[u8], block: &[u8], at: usize, ceiling: u32) -> u32
    requires { (976 ≤ length block.now) × (at + 976 ≤ length window.now) × (at ≤ 4096) }
    ensures { result ≡ copy_up_to ceiling window.now block.now at }
{
    let mut sum: u32 = 0;
    let mut p: usize = 0;
    let mut q = at;
    for g in 0..4usize {
        if g == 2 {
            if ceiling < sum {
                return sum;
            }
        }
        sum += distortion::four_rows(window, block, measures::ABSOLUTE, ROW, ROW, p, q, 16);
        p += 4 * ROW;
        q += 4 * ROW;
    }
    sum
}

// Whether so many pels from place `from` on have this grey: those that have not are counted, which takes no branch.
fn grey_row(frame: &[u8], from: usize, columns: usize, grey: u8) -> bool
    requires { (from + columns ≤ length frame.now) × (columns ≤ 64) }
    ensures { result ≡ grey_row frame.now from columns grey }
{
    let mut others: u8 = 0;
    for j in 0..columns {
        others += if frame[from + j] == grey { 0 } else { 1 };
    }
    others == 0
}

// Whether so many rows of a frame, from place `from` on, have one grey.
pub fn one_grey(frame: &[u8], width: usize, from: usize, rows: usize, columns: usize) -> bool
    requires { (0 < rows) × (0 < columns) × (from + rows * width + columns ≤ length frame.now + width)
        × (width ≤ 1024) × (rows ≤ 64) × (columns ≤ 64) }
    ensures { result ≡ one_grey frame.now width from rows columns }
{
    let grey = frame[from];
    let mut at = from;
    for _row in 0..rows {
        if !grey_row(frame, at, columns, grey) {
            return false;
        }
        at += width;
    }
    true
}
