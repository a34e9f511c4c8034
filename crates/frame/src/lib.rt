// Frames: what goes with a pair of them, the grid of blocks, and candidates.

#![tactic(auto)]

ghost use Rattle.std.specs.Prelude.{◌≡◌, ◌<◌};
ghost use Rattle.order.specs.Vectors.{vec};
ghost use Rattle.frame.specs.Pictures.{setting, largest_distortion, Fitting};
ghost use Rattle.frame.specs.Grid.{blocks, block_row, block_column};
ghost use Rattle.frame.specs.Candidates.{candidate, older_at, part_at};

// The largest N.
pub const LARGEST_N: usize = 32;

// How many counts a search has, one for each m = 32, 16, 8, 4, 2, 1, and the place of the last, for m = 1.
pub const COUNTS: usize = 6;

pub const LAST_COUNT: usize = COUNTS - 1;

// What goes with a pair: width and height of its frames, the block size N, and the measure.
#[derive(Clone, Copy)]
pub struct Setting {
    pub width: usize,
    pub height: usize,
    pub n: usize,
    pub measure: u32,
}

// A block of the newer frame, at row y, column x, to be searched within window w.
#[derive(Clone, Copy)]
pub struct SearchBlock {
    pub setting: Setting,
    pub w: usize,
    pub y: usize,
    pub x: usize,
}

// A part of a frame: so many rows from row `top` on, so many columns from column `left` on.
#[derive(Clone, Copy)]
pub struct Region {
    pub top: usize,
    pub left: usize,
    pub rows: usize,
    pub columns: usize,
}

// The setting of these four numbers.
pub fn setting_by(width: usize, height: usize, n: usize, measure: u32) -> Setting
    ensures { result ≡ setting width height n measure }
{
    Setting {
        width,
        height,
        n,
        measure,
    }
}

// The largest distortion by a measure, with the largest N.
pub fn largest_distortion(measure: u32) -> u32
    ensures { result ≡ largest_distortion measure }
{
    (LARGEST_N * LARGEST_N) as u32 * measures::most(measure)
}

// ---- the grid

// How many blocks the grid has.
pub fn block_count(s: Setting) -> usize
    requires { Fitting s }
    ensures { result ≡ blocks s }
{
    (s.height / s.n) * (s.width / s.n)
}

// The pel row of grid block k.
pub fn block_row(s: Setting, k: usize) -> usize
    requires { Fitting s × (k < blocks s) }
    ensures { result ≡ block_row s k }
{
    k / (s.width / s.n) * s.n
}

// The pel column of grid block k.
pub fn block_column(s: Setting, k: usize) -> usize
    requires { Fitting s × (k < blocks s) }
    ensures { result ≡ block_column s k }
{
    k % (s.width / s.n) * s.n
}

// ---- candidates

// at + d, where d lies in -w ..= w and n pels from there on lie in a side of so many.
fn part_at(at: usize, d: i32, w: usize, n: usize, side: usize) -> Option<usize>
    ensures { result ≡ part_at at d w n side }
{
    if !signed::within(d, w) {
        return None;
    }
    if side < n {
        return None;
    }
    signed::shift(at, d, side - n)
}

// Row and column of the older block that (dy, dx) compares with the newer block at row y, column x, where (dy, dx) is a candidate for window w.
pub fn older_at(
    s: Setting,
    w: usize,
    y: usize,
    x: usize,
    dy: i32,
    dx: i32,
) -> Option<(usize, usize)>
    ensures { result ≡ older_at s w y x (vec dy dx) }
{
    let row = part_at(y, dy, w, s.n, s.height)?;
    let column = part_at(x, dx, w, s.n, s.width)?;
    Some((row, column))
}

// (dy, dx) is a candidate for window w of the block at row y, column x.
pub fn is_candidate(s: Setting, w: usize, y: usize, x: usize, dy: i32, dx: i32) -> bool
    ensures { result ≡ candidate s w y x (vec dy dx) }
{
    older_at(s, w, y, x, dy, dx).is_some()
}
