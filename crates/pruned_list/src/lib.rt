// The candidates that remain in search 2, listed as keys in front of a lent array. A key is distance × 2^18 + order, and the order ends in the
// candidate's spot, 64 × row + column of window 16. So the least key is the nearest's, and equals go by the preference order. Those that remain to the
// end are measured, and the one of least distortion chosen.

#![tactic(auto)]

ghost use Rattle.std.specs.Prelude.{◌≡◌, ◌+◌, ◌*◌, ◌≤◌, ◌<◌, min, ◌++◌, length, drop};
ghost use Rattle.base.specs.Lists.{list_to, fill_to};
ghost use Rattle.distortion.specs.Blocks.{capped};
ghost use Rattle.reach.specs.Keys.{order_code, code_of};
ghost use Rattle.pruned_rule.specs.Spots.{spots, vector_on};
ghost use Rattle.pruned_list.specs.Listed.{keys_of, spot_of, renewed, nearest_key, KeptWithin, SpotIn, SpotsIn, distortion_to, measured_key, least_measured};

use frame::Region;
use search::Matching;

// The keys of one row with distance 0, from place `at` on.
fn list_row(
    row: usize,
    left: usize,
    columns: usize,
    codes: &[u64; reach::SIDE],
    keys: &mut [u64],
    at: usize,
)
    requires { (row < 33) × (left + columns ≤ 33) × (codes.now ≡ list_to (code_of 1) 33) × (at + columns ≤ length keys.old) }
    ensures { keys.new ≡ fill_to keys.old at (λ j. order_code row (left + j)) columns }
{
    let down = reach::code_of(64, row);
    for j in 0..columns {
        keys[at + j] = down + codes[left + j];
    }
}

// Every candidate in reach with distance 0; answers how many there are. Behind them the array is as it was.
pub fn list_every(r: Region, keys: &mut [u64]) -> usize
    requires { (r.top + r.rows ≤ 33) × (r.left + r.columns ≤ 33) × (r.rows * r.columns ≤ length keys.old) }
    ensures { (result ≡ r.rows * r.columns) × (keys.new ≡ keys_of (λ v. 0) (spots r) ++ drop result keys.old) }
{
    let codes = reach::codes_of(1);
    for i in 0..r.rows {
        list_row(r.top + i, r.left, r.columns, &codes, keys, i * r.columns);
    }
    r.rows * r.columns
}

// The spot of the candidate with this key.
pub fn spot_of(key: u64) -> usize
    ensures { result ≡ spot_of key }
{
    (key % 4096) as usize
}

// The key with another distance. A distance below 2^46 leaves room for the order: the largest there is, of N 32 by squares, is 68,183,654,400.
pub fn renewed(key: u64, distance: u64) -> u64
    requires { distance < 70368744177664 }
    ensures { result ≡ renewed key distance }
{
    distance * 262144 + key % 262144
}

// The least key: that of the nearest, and of equals the first in preference order.
pub fn nearest(keys: &[u64]) -> u64
    requires { 0 < length keys.now }
    ensures { result ≡ nearest_key keys.now (length keys.now) }
{
    let mut least = keys[0];
    for i in 1..keys.len() {
        least = least.min(keys[i]);
    }
    least
}

// Drops each key whose distance exceeds `limit`; answers how many remain. Each is stored behind those that stay, and counted if it stays too: a branch
// around the store costs more than the store. So the place just behind those that stay may hold one that was dropped; what comes after it is kept.
pub fn keep_within(keys: &mut [u64], count: usize, limit: u64) -> usize
    requires { count ≤ length keys.old }
    ensures { KeptWithin limit keys.old count keys.new result }
{
    let mut kept: usize = 0;
    for from in 0..count {
        let key = keys[from];
        keys[kept] = key;
        if key / 262144 <= limit {
            kept += 1;
        }
    }
    kept
}

// ---- measuring

// The distortion of the candidate on a spot, as far as the ceiling goes.
fn measured(matching: Matching, spot: usize, ceiling: u32) -> Option<u32>
    requires { SpotIn matching.block spot }
    ensures { let m = matching.entry in result ≡ capped ceiling (distortion_to m.older.now m.newer.now m.block (vector_on spot)) }
{
    let b = matching.block;
    let row = b.y + spot / 64 - 16;
    let column = b.x + spot % 64 - 16;
    distortion::block_up_to(
        matching.older,
        matching.newer,
        b.setting,
        b.y,
        b.x,
        row,
        column,
        ceiling,
    )
}

// E lowered to the distortion of the candidate on a spot, if that is less: measured with E as ceiling.
pub fn lowered(matching: Matching, spot: usize, e: u32) -> u32
    requires { SpotIn matching.block spot }
    ensures { let m = matching.entry in result ≡ min e (distortion_to m.older.now m.newer.now m.block (vector_on spot)) }
{
    let Some(d) = measured(matching, spot, e) else {
        return e;
    };
    d
}

// The lesser of a key and that of a listed candidate by its distortion, which is measured as far as the least so far goes.
fn lesser_measured(matching: Matching, key: u64, best: u64) -> u64
    requires { SpotIn matching.block (spot_of key) × (best < 1125899906842624) }
    ensures { let m = matching.entry in result ≡ min best (measured_key (distortion_to m.older.now m.newer.now m.block) key) }
{
    let ceiling = (best / 262144) as u32;
    let Some(d) = measured(matching, spot_of(key), ceiling) else {
        return best;
    };
    let k = renewed(key, d as u64);
    if k < best {
        return k;
    }
    best
}

// Of the listed, the key of the least distortion, equals by the preference order. It begins with 2^50 - 1, which is more than any such key.
pub fn choose(matching: Matching, keys: &[u64]) -> u64
    requires { (0 < length keys.now) × SpotsIn matching.block keys.now (length keys.now) }
    ensures { let m = matching.entry in
        (result ≡ least_measured (distortion_to m.older.now m.newer.now m.block) keys.now (length keys.now)) × (result < 1125899906842624) }
{
    let mut best: u64 = 1125899906842623;
    for &key in keys {
        best = lesser_measured(matching, key, best);
    }
    best
}
