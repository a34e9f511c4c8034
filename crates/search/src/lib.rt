// What the four searches share: the distortion of a candidate, and the answer.

#![tactic(auto)]

mod matching;

ghost use Rattle.std.specs.Prelude.{◌≡◌, ◌-◌, ◌≤◌, pos, ◌+ℤ◌};
ghost use Rattle.signed.specs.Int.{up};
ghost use Rattle.order.specs.Vectors.{vec};
ghost use Rattle.search.specs.SearchResult.{only_at_one};
ghost use Rattle.search.specs.Matchings.{target_in};
ghost use Rattle.search.specs.Target.{Past, measure_candidate};

pub use matching::Matching;

// What a search answers: a vector, its distortion, six counts for m = 32, 16, 8, 4, 2, 1, and the number dropped.
#[repr(C)]
#[derive(Clone, Copy)]
pub struct SearchResult {
    pub refusal: u32,
    pub dy: i32,
    pub dx: i32,
    pub distortion: u32,
    pub counts: [u32; frame::COUNTS],
    pub dropped: u32,
}

// The counts of a search that counts at m = 1 alone.
pub fn only_at_one(count: u32) -> [u32; frame::COUNTS]
    ensures { result ≡ only_at_one count }
{
    let mut counts = [0u32; frame::COUNTS];
    counts[frame::LAST_COUNT] = count;
    counts
}

// at + d, counted from `from`: the row or the column of a candidate's older block.
pub fn past(d: i32, at: usize, from: usize) -> usize
    requires { Past d at from }
    ensures { (result ≡ up (pos at +ℤ d) - from) × (result ≤ 1024) }
{
    signed::biased(d) + at - (16 + from)
}

// The distortion of a candidate under a ceiling, or nothing where a vector is none. Three cases, each with its name: an Option of an Option would tell
// two of them apart by nesting.
#[derive(Clone, Copy)]
pub enum MeasuredCandidate {
    Distortion(u32),
    OverCeiling,
    NotCandidate,
}

// The distortion of (dy, dx) under the ceiling, where it is a candidate.
pub fn measure_candidate(matching: Matching, dy: i32, dx: i32, ceiling: u32) -> MeasuredCandidate
    ensures { result ≡ measure_candidate (target_in matching.entry) ceiling (vec dy dx) }
{
    let b = matching.block;
    let s = b.setting;
    let y = b.y;
    let x = b.x;
    let Some((r, c)) = frame::older_at(s, b.w, y, x, dy, dx) else {
        return MeasuredCandidate::NotCandidate;
    };
    let Some(d) = distortion::block_up_to(matching.older, matching.newer, s, y, x, r, c, ceiling)
    else {
        return MeasuredCandidate::OverCeiling;
    };
    MeasuredCandidate::Distortion(d)
}
