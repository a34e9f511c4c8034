// Search 2, Gharavi-Alkhansari's pruned search, of one block. While many candidates remain the distances of all of them are worked out at once: what
// remains after m is just those whose distance at m is within the limit, so no list is needed; the few are listed and looked up one by one.

#![tactic(auto)]

ghost use Rattle.std.specs.Prelude.{◌≡◌, false, ◌++◌, ℕ, ◌+◌, ◌-◌, ◌*◌, ◌≤◌, ◌<◌, min, T, length, get_or, take, replicate};
ghost use Rattle.measures.specs.Measures.{measure_of};
ghost use Rattle.order.specs.declared.Vector.{Vector};
ghost use Rattle.frame.specs.Pictures.{count_number};
ghost use Rattle.refusals.specs.Refusals.{block_size_ok};
ghost use Rattle.search.specs.SearchResult.{search_result};
ghost use Rattle.search.specs.Matchings.{pair_in};
ghost use Rattle.reach.specs.Reach.{Standing, reach};
ghost use Rattle.pruned_rule.specs.Sift.{kept};
ghost use Rattle.pruned_rule.specs.Spots.{spots, vector_on, choice_of};
ghost use Rattle.boxes.specs.Boxes.{area, Filled};
ghost use Rattle.boxes.specs.Distances.{Resolution, Numbered};
ghost use Rattle.pruned_list.specs.Listed.{spot_of, nearest_key, SpotIn, distortion_to};
ghost use Rattle.pruned_sift.specs.Laid.{Laid, RowLeasts, LowerBounds};
ghost use Rattle.pruned.specs.Answer.{still_distortion, pruned_search};
ghost use Rattle.pruned.specs.Flow.{dist_of, limit_of, bound_by, bound_at, fits, few, by_all, next_of, first_slot, Roomy, is_blank, blank_answer, Distances, Held, Facing, Leveled, Search, Closing};

use frame::{Region, SearchBlock, Setting};
use search::{Matching, SearchResult};

// Up to so many candidates are listed and looked up one by one.
pub const FEW: usize = 64;

// The search between two resolutions: how many candidates remain, and E. They are listed unless the next test is of all.
#[derive(Clone, Copy)]
pub struct Remaining {
    pub count: usize,
    pub bound: u32,
}

// Whether distances at m have 32 bits.
fn fits(s: Setting, m: usize) -> bool
    requires { (s.n ≤ 32) × (m ≤ 32) }
    ensures { result ≡ fits s m }
{
    s.measure == measures::ABSOLUTE || s.n * m <= 256
}

// Whether so many candidates are tested at m by the distances of all.
fn by_all(s: Setting, m: usize, count: usize) -> bool
    requires { (s.n ≤ 32) × (m ≤ 32) }
    ensures { result ≡ by_all s m count }
{
    count > FEW && fits(s, m)
}

// How far a distance of 32 bits may go at m for E.
fn most(s: Setting, m: usize, e: u32) -> u32
    requires { m ≤ 32 }
    ensures { result ≡ min ((measure_of s.measure).limit m e) 4294967295 }
{
    measures::limit(s.measure, m, e).min(4294967295) as u32
}

// Where the count of the tests at N stands among the six.
fn first_slot(n: usize) -> usize
    requires { T (block_size_ok n) }
    ensures { result ≡ first_slot n }
{
    frame::LAST_COUNT - refusals::log2_window(n) as usize
}

// All counts from a place on.
fn fill_counts(before: [u32; frame::COUNTS], from: usize, count: usize) -> [u32; frame::COUNTS]
    requires { (length before ≡ count_number) × (from ≤ count_number) × (count ≤ 1089) }
    ensures { result ≡ take from before ++ replicate (count_number - from) count }
{
    let mut counts = before;
    counts[from..].fill(count as u32);
    counts
}

// The resolution after m. A candidate alone is the best: it stays, whatever E is.
fn next(m: usize, count: usize) -> usize
    ensures { result ≡ next_of m count }
{
    if count == 1 {
        return 1;
    }
    m / 2
}

// ---- one resolution, by the distances of all

// The distances at m of all candidates.
fn fill_numbers(
    boxes: &[u16],
    s: Setting,
    m: usize,
    span: usize,
    numbers: &mut [u32; boxes::PLACES],
)
    requires { T (block_size_ok s.n) × Resolution s.n m × T (fits s m) × (span ≤ (s.n + 32) * 32 + 33) × (0 < span)
        × (5 * area s.n ≤ length boxes.now) × Filled s.n span boxes.now × (length numbers.old ≡ 2088) }
    ensures { Numbered s.measure boxes.now s.n m span numbers.new × (length numbers.new ≡ 2088) }
{
    if s.measure == measures::ABSOLUTE {
        pruned_narrow::fill(boxes, s.n, m, span, numbers);
        return;
    }
    pruned_wide::fill(boxes, s.n, m, span, numbers);
}

// The least distance of each row of candidates. At N it is not worked out, and 0 stands for it.
fn leasts_below(numbers: &[u32], r: Region, n: usize, m: usize) -> [u32; reach::SIDE]
    requires { (n ≤ 32) × Laid numbers.now (n + 32) r }
    ensures { LowerBounds numbers.now (n + 32) r result × (m < n → RowLeasts numbers.now (n + 32) r result) }
{
    if m < n {
        return pruned_sift::leasts(numbers, n + 32, r);
    }
    [0u32; reach::SIDE]
}

// E lowered to the distortion of the nearest of all. At N it stays.
fn bound_of_all(
    matching: Matching,
    r: Region,
    numbers: &[u32],
    least: &[u32; reach::SIDE],
    m: usize,
    e: u32,
) -> u32
    requires { let k = matching in (r ≡ reach k.block) × (2088 ≤ length numbers.now)
        × Distances (dist_of k.older.now k.newer.now k.block m) k.block numbers.now
        × (m < k.block.setting.n → RowLeasts numbers.now (k.block.setting.n + 32) r least.now) }
    ensures { let k = matching.entry in result ≡ bound_at k.older.now k.newer.now k.block m e }
{
    let n = matching.block.setting.n;
    if m < n {
        let key = pruned_sift::nearest(numbers, n + 32, r, least);
        return pruned_list::lowered(matching, pruned_list::spot_of(key), e);
    }
    e
}

// Those of all within the limit for E, listed where they are few.
fn within_all(
    b: SearchBlock,
    r: Region,
    numbers: &[u32],
    least: &[u32; reach::SIDE],
    m: usize,
    e: u32,
    keys: &mut [u64],
) -> Remaining
    requires { Standing b × (b.setting.n ≤ 32) × (r ≡ reach b) × (m ≤ 32) × T (fits b.setting m) × (2088 ≤ length numbers.now)
        × (few < length keys.old) × LowerBounds numbers.now (b.setting.n + 32) r least.now }
    ensures { (result.bound ≡ e) × (length keys.new ≡ length keys.old) × ((cost : Vector → ℕ) → Distances cost b numbers.now
        → Held b m (kept (λ t. cost (vector_on t)) (limit_of b m e) (spots (reach b))) keys.new result) }
{
    let s = b.setting;
    let pitch = s.n + 32;
    let limit = most(s, m, e);
    let mut counts = [0u32; reach::SIDE];
    let count = pruned_sift::within(numbers, pitch, r, least, limit, &mut counts);
    if count <= FEW {
        pruned_sift::list_within(numbers, pitch, r, &counts, limit, keys);
    }
    Remaining { count, bound: e }
}

// The test at m, where distances have 32 bits.
fn all_level(
    matching: Matching,
    r: Region,
    boxes: &[u16],
    m: usize,
    keys: &mut [u64],
    numbers: &mut [u32; boxes::PLACES],
    e: u32,
) -> Remaining
    requires { let k = matching in Search k.older.now k.newer.now k.block r boxes.now m × T (fits k.block.setting m) × (few < length keys.old) × (length numbers.old ≡ 2088) }
    ensures { let k = matching.entry in Leveled k.older.now k.newer.now k.block m e keys.new result
        × (length keys.new ≡ length keys.old) × (length numbers.new ≡ 2088) }
{
    let s = matching.block.setting;
    fill_numbers(boxes, s, m, boxes::span(s.n, r), numbers);
    let least = leasts_below(&*numbers, r, s.n, m);
    let f = bound_of_all(matching, r, &*numbers, &least, m, e);
    within_all(matching.block, r, &*numbers, &least, m, f, keys)
}

// ---- one resolution, one by one

// E lowered to the distortion of the nearest of the listed. At N it stays.
fn bound_of_listed(matching: Matching, keys: &[u64], m: usize, e: u32) -> u32
    requires { (0 < length keys.now) × SpotIn matching.block (spot_of (nearest_key keys.now (length keys.now))) }
    ensures { let k = matching.entry in
        result ≡ bound_by k.older.now k.newer.now k.block m (vector_on (spot_of (nearest_key keys.now (length keys.now)))) e }
{
    let n = matching.block.setting.n;
    if m < n {
        let key = pruned_list::nearest(keys);
        return pruned_list::lowered(matching, pruned_list::spot_of(key), e);
    }
    e
}

// The test at m, of those listed.
fn listed_level(
    matching: Matching,
    r: Region,
    boxes: &[u16],
    m: usize,
    keys: &mut [u64],
    q: Remaining,
) -> Remaining
    requires { let k = matching in Search k.older.now k.newer.now k.block r boxes.now m × Facing k.older.now k.newer.now k.block m keys.old q × (by_all k.block.setting m q.count ≡ false) }
    ensures { let k = matching.entry in Leveled k.older.now k.newer.now k.block m q.bound keys.new result
        × (length keys.new ≡ length keys.old) }
{
    let s = matching.block.setting;
    pruned_lookup::fill(boxes, s.measure, s.n, m, r, keys, q.count);
    let e = bound_of_listed(matching, &keys[..q.count], m, q.bound);
    let count = pruned_list::keep_within(keys, q.count, measures::limit(s.measure, m, e));
    Remaining { count, bound: e }
}

// ---- the search

// Before the first test: all candidates, listed where they are few or their distances at N have no 32 bits.
fn begin(b: SearchBlock, r: Region, e: u32, keys: &mut [u64]) -> Remaining
    requires { Standing b × (b.setting.n ≤ 32) × (r ≡ reach b) × Roomy b.setting (length keys.old) }
    ensures { Held b b.setting.n (spots (reach b)) keys.new result × (result.bound ≡ e)
        × (length keys.new ≡ length keys.old) }
{
    let s = b.setting;
    let count = r.rows * r.columns;
    if !by_all(s, s.n, count) {
        pruned_list::list_every(r, keys);
    }
    Remaining { count, bound: e }
}

// The test at m: of all candidates where many remain, or else of those listed.
fn level(
    matching: Matching,
    r: Region,
    boxes: &[u16],
    m: usize,
    keys: &mut [u64],
    numbers: &mut [u32; boxes::PLACES],
    q: Remaining,
) -> Remaining
    requires { let k = matching in Search k.older.now k.newer.now k.block r boxes.now m × Facing k.older.now k.newer.now k.block m keys.old q × (few < length keys.old)
        × (length numbers.old ≡ 2088) }
    ensures { let k = matching.entry in Leveled k.older.now k.newer.now k.block m q.bound keys.new result
        × (length keys.new ≡ length keys.old) × (length numbers.new ≡ 2088) }
{
    if by_all(matching.block.setting, m, q.count) {
        return all_level(matching, r, boxes, m, keys, numbers, q.bound);
    }
    listed_level(matching, r, boxes, m, keys, q)
}

// The answer, with these counts: the best of the listed, or where many remain what full search finds.
fn answer(
    matching: Matching,
    keys: &[u64],
    q: Remaining,
    counts: [u32; frame::COUNTS],
    dropped: u32,
) -> SearchResult
    requires { let m = matching in Closing m.older.now m.newer.now m.block keys.now q }
    ensures { let m = matching.entry in let v = choice_of m.block (distortion_to m.older.now m.newer.now m.block) in
        result ≡ search_result v (distortion_to m.older.now m.newer.now m.block v) counts dropped }
{
    if q.count > FEW {
        let f = full::search(matching);
        return SearchResult {
            refusal: 0,
            dy: f.dy,
            dx: f.dx,
            distortion: f.distortion,
            counts,
            dropped,
        };
    }
    let key = pruned_list::choose(matching, &keys[..q.count]);
    let spot = pruned_list::spot_of(key);
    SearchResult {
        refusal: 0,
        dy: signed::unbiased(spot / 64),
        dx: signed::unbiased(spot % 64),
        distortion: (key / 262144) as u32,
        counts,
        dropped,
    }
}

// All tests, from N on, and the answer.
fn tests(matching: Matching, r: Region, boxes: &[u16], keys: &mut [u64], e: u32) -> SearchResult
    requires { let m = matching in Search m.older.now m.newer.now m.block r boxes.now m.block.setting.n × Roomy m.block.setting (length keys.old)
        × (e ≡ still_distortion (pair_in m) m.block.y m.block.x) }
    ensures { let m = matching.entry in result ≡ pruned_search (pair_in m) m.block.w m.block.y m.block.x }
{
    let n = matching.block.setting.n;
    let mut numbers = [0u32; boxes::PLACES];
    let first = begin(matching.block, r, e, keys);
    let total = first.count;
    let mut counts = [0u32; frame::COUNTS];
    let mut slot = first_slot(n);
    counts[slot] = total as u32;
    let mut q = level(matching, r, boxes, n, keys, &mut numbers, first);
    slot += 1;
    let mut m = next(n, q.count);
    // m is halved, and 1 as soon as one candidate remains: no range has these m.
    while m >= 2 {
        counts[slot] = q.count as u32;
        q = level(matching, r, boxes, m, keys, &mut numbers, q);
        slot += 1;
        m = next(m, q.count);
    }
    let all = fill_counts(counts, slot, q.count);
    answer(matching, &*keys, q, all, (total - q.count) as u32)
}

// Whether the search window has one grey and (0,0) has no distortion.
fn is_blank(older: &[u8], b: SearchBlock, r: Region, e: u32) -> bool
    requires { Standing b × T (block_size_ok b.setting.n) × (r ≡ reach b) × (b.setting.height * b.setting.width ≤ length older.now) }
    ensures { result ≡ is_blank older.now b e }
{
    if e != 0 {
        return false;
    }
    let s = b.setting;
    let row = b.y + r.top - 16;
    let column = b.x + r.left - 16;
    window_copy::one_grey(
        older,
        s.width,
        row * s.width + column,
        r.rows + s.n - 1,
        r.columns + s.n - 1,
    )
}

// The answer for blank paper: all candidates remain to the end without distortion, and (0,0) is the first of them.
fn blank_answer(n: usize, r: Region) -> SearchResult
    requires { T (block_size_ok n) × (r.rows ≤ 33) × (r.columns ≤ 33) }
    ensures { result ≡ blank_answer n (r.rows * r.columns) }
{
    let counts = fill_counts([0u32; frame::COUNTS], first_slot(n), r.rows * r.columns);
    SearchResult {
        refusal: 0,
        dy: 0,
        dx: 0,
        distortion: 0,
        counts,
        dropped: 0,
    }
}

// The boxes in the memory lent for them, then all tests.
fn search_with(
    matching: Matching,
    r: Region,
    e: u32,
    boxes: &mut [u16],
    keys: &mut [u64],
) -> SearchResult
    requires { let m = matching in (r ≡ reach m.block) × (5 * area m.block.setting.n ≤ length boxes.old)
        × ((u : ℕ) → u < area m.block.setting.n → get_or boxes.old u 0 ≤ 255) × Roomy m.block.setting (length keys.old)
        × (e ≡ still_distortion (pair_in m) m.block.y m.block.x) }
    ensures { let m = matching.entry in result ≡ pruned_search (pair_in m) m.block.w m.block.y m.block.x }
{
    boxes::fill(matching, r, boxes);
    tests(matching, r, &*boxes, keys, e)
}

// Search 2 of one block: blank paper at once, or else with memory as large as N asks for.
pub fn search(matching: Matching) -> SearchResult
    ensures { let m = matching.entry in result ≡ pruned_search (pair_in m) m.block.w m.block.y m.block.x }
{
    let b = matching.block;
    let s = b.setting;
    let r = reach::reach(b);
    let e = distortion::block_distortion(matching.older, matching.newer, s, b.y, b.x, b.y, b.x);
    if is_blank(matching.older, b, r, e) {
        return blank_answer(s.n, r);
    }
    if s.n == 32 {
        let mut boxes = [0u16; boxes::LARGE];
        let mut keys = [0u64; order::VECTORS];
        return search_with(matching, r, e, &mut boxes, &mut keys);
    }
    let mut boxes = [0u16; boxes::SMALL];
    let mut keys = [0u64; FEW + 1];
    search_with(matching, r, e, &mut boxes, &mut keys)
}
