// The distances of all candidates as numbers of 32 bits, row after row: the nearest, how many are within a limit, and these listed as keys. A row whose
// least number cannot matter is passed over; each row's least is worked out once.

#![tactic(auto)]

ghost use Rattle.std.specs.Prelude.{◌≡◌, ℕ, ◌+◌, ◌-◌, ◌*◌, ◌≤◌, ◌<◌, leb, length, get_or, take, drop};
ghost use Rattle.base.specs.Sum.{sum_to};
ghost use Rattle.base.specs.Lists.{list_to};
ghost use Rattle.base.specs.Tests.{one};
ghost use Rattle.reach.specs.Keys.{key_of, code_of};
ghost use Rattle.full.specs.Rows.{least_from, LeastKey};
ghost use Rattle.pruned_rule.specs.Spots.{spots};
ghost use Rattle.pruned_list.specs.Listed.{keys_of};
ghost use Rattle.pruned_sift.specs.Laid.{Laid, RowLeasts, LowerBounds, key_in, row_spots, within, RowCounts, Added};

use frame::Region;

// The least of so many numbers from a place on.
fn least_of_row(numbers: &[u32], from: usize, columns: usize) -> u32
    requires { from + columns ≤ length numbers.now }
    ensures { result ≡ least_from 4294967295 (λ k. get_or numbers.now k 0) from columns }
{
    let mut least: u32 = 4294967295;
    for j in 0..columns {
        least = least.min(numbers[from + j]);
    }
    least
}

// The least number of each row of the region; behind them 0.
pub fn leasts(numbers: &[u32], pitch: usize, r: Region) -> [u32; reach::SIDE]
    requires { Laid numbers.now pitch r }
    ensures { RowLeasts numbers.now pitch r result }
{
    let mut least = [0u32; reach::SIDE];
    for i in 0..r.rows {
        least[i] = least_of_row(numbers, pitch * i, r.columns);
    }
    least
}

// ---- the nearest

// The least of a key and those of row i of window 16, whose numbers stand from a place on.
fn row_keys(
    numbers: &[u32],
    from: usize,
    i: usize,
    left: usize,
    columns: usize,
    codes: &[u64; reach::SIDE],
    best: u64,
) -> u64
    requires { (from + columns ≤ length numbers.now) × (i < 33) × (left + columns ≤ 33) × (codes.now ≡ list_to (code_of 1) 33) }
    ensures { result ≡ least_from best (λ j. key_of (get_or numbers.now (from + (j - left)) 0) i j) left columns }
{
    let down = reach::code_of(64, i);
    let mut least = best;
    for j in 0..columns {
        let code = down + codes[left + j];
        least = least.min(numbers[from + j] as u64 * 262144 + code);
    }
    least
}

// The least of all keys: of the rows alone whose least number is the least of all. It begins above every such key.
pub fn nearest(numbers: &[u32], pitch: usize, r: Region, least: &[u32; reach::SIDE]) -> u64
    requires { Laid numbers.now pitch r × RowLeasts numbers.now pitch r least.now }
    ensures { LeastKey (key_in numbers.now pitch r) r result }
{
    let codes = reach::codes_of(1);
    let bottom = least_of_row(least, 0, r.rows);
    let mut best = bottom as u64 * 262144 + 262143;
    for i in 0..r.rows {
        if least[i] == bottom {
            best = row_keys(
                numbers,
                pitch * i,
                r.top + i,
                r.left,
                r.columns,
                &codes,
                best,
            );
        }
    }
    best
}

// ---- those within a limit

// How many of so many numbers from a place on are within the limit. None is less than `least`.
fn within_row(numbers: &[u32], from: usize, columns: usize, least: u32, most: u32) -> u32
    requires { (from + columns ≤ length numbers.now) × (columns ≤ 33)
        × ((j : ℕ) → j < columns → least ≤ get_or numbers.now (from + j) 0) }
    ensures { result ≡ sum_to (λ j. one (leb (get_or numbers.now (from + j) 0) most)) columns }
{
    if least > most {
        return 0;
    }
    let mut n: u32 = 0;
    for j in 0..columns {
        n += if numbers[from + j] <= most { 1 } else { 0 };
    }
    n
}

// How many of all are, and how many of each row. No number of a row is less than its `least`.
pub fn within(
    numbers: &[u32],
    pitch: usize,
    r: Region,
    least: &[u32; reach::SIDE],
    most: u32,
    counts: &mut [u32; reach::SIDE],
) -> usize
    requires { Laid numbers.now pitch r × LowerBounds numbers.now pitch r least.now × (length counts.old ≡ 33) }
    ensures { (result ≡ length (within numbers.now pitch r most (spots r)))
        × RowCounts numbers.now pitch r most counts.new }
{
    let mut n: usize = 0;
    for i in 0..r.rows {
        let count = within_row(numbers, pitch * i, r.columns, least[i], most);
        counts[i] = count;
        n += count as usize;
    }
    n
}

// The keys of those of row i of the region that are within the limit, with distance 0, from place `at` on; answers where the next goes. Each is stored
// behind those before it, and counted if it is within: so one place more is written.
fn list_row(
    numbers: &[u32],
    pitch: usize,
    i: usize,
    r: Region,
    most: u32,
    codes: &[u64; reach::SIDE],
    keys: &mut [u64],
    at: usize,
) -> usize
    requires { Laid numbers.now pitch r × (i < r.rows) × (codes.now ≡ list_to (code_of 1) 33)
        × (at + length (within numbers.now pitch r most (row_spots r i)) < length keys.old) }
    ensures { Added (within numbers.now pitch r most (row_spots r i)) keys.old at keys.new result }
{
    let from = pitch * i;
    let down = reach::code_of(64, r.top + i);
    let mut n = at;
    for j in 0..r.columns {
        keys[n] = down + codes[r.left + j];
        if numbers[from + j] <= most {
            n += 1;
        }
    }
    n
}

// The keys of all that are within the limit, with distance 0, in front of the array; answers how many there are. Behind the place after
// them the array is as it was.
pub fn list_within(
    numbers: &[u32],
    pitch: usize,
    r: Region,
    counts: &[u32; reach::SIDE],
    most: u32,
    keys: &mut [u64],
) -> usize
    requires { Laid numbers.now pitch r × RowCounts numbers.now pitch r most counts.now
        × (length (within numbers.now pitch r most (spots r)) < length keys.old) }
    ensures { (result ≡ length (within numbers.now pitch r most (spots r)))
        × (take result keys.new ≡ keys_of (λ v. 0) (within numbers.now pitch r most (spots r)))
        × (drop (result + 1) keys.new ≡ drop (result + 1) keys.old) }
{
    let codes = reach::codes_of(1);
    let mut n: usize = 0;
    for i in 0..r.rows {
        if counts[i] > 0 {
            n = list_row(numbers, pitch, i, r, most, &codes, keys, n);
        }
    }
    n
}
