// Which vectors of window 16 are a block's candidates: some of its 33 rows, some of its 33 columns. And what a row and a column add to a vector's key.

#![tactic(auto)]

ghost use Rattle.std.specs.Prelude.{◌≡◌, ◌*◌, ◌≤◌, ◌<◌};
ghost use Rattle.base.specs.Lists.{list_to};
ghost use Rattle.signed.specs.Values.{abs_diff};
ghost use Rattle.reach.specs.Reach.{Standing, reach};
ghost use Rattle.reach.specs.Keys.{code_of};

use frame::{Region, SearchBlock};

// The rows or columns of window 16.
pub const SIDE: usize = 33;

// The rows and columns of window 16 whose vectors are the block's candidates.
pub fn reach(b: SearchBlock) -> Region
    requires { Standing b }
    ensures { result ≡ reach b }
{
    let s = b.setting;
    let y = b.y;
    let x = b.x;
    let w = b.w;
    let up = y.min(w);
    let down = w.min(s.height - s.n - y);
    let back = x.min(w);
    let on = w.min(s.width - s.n - x);
    Region {
        top: 16 - up,
        left: 16 - back,
        rows: up + down + 1,
        columns: back + on + 1,
    }
}

// ---- keys

// How far row or column i of window 16 lies from the middle, as a part of a key.
fn away(i: usize) -> u64
    requires { i < 33 }
    ensures { result ≡ abs_diff i 16 * 4096 }
{
    if i < 16 {
        return (16 - i) as u64 * 4096;
    }
    (i - 16) as u64 * 4096
}

// What row or column i adds to a key, whose number counts `weight`: 64 for rows, 1 for columns.
pub fn code_of(weight: u64, i: usize) -> u64
    requires { (weight ≤ 64) × (i < 33) }
    ensures { result ≡ code_of weight i }
{
    away(i) + weight * i as u64
}

// What each row or column adds.
pub fn codes_of(weight: u64) -> [u64; SIDE]
    requires { weight ≤ 64 }
    ensures { result ≡ list_to (code_of weight) 33 }
{
    let mut codes = [0u64; SIDE];
    for i in 0..SIDE {
        codes[i] = code_of(weight, i);
    }
    codes
}
