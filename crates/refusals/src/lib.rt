// The refusals 1 to 7 and 51: each rule as a test, and the chains of tests with which the calls begin.

#![tactic(auto)]

ghost use Rattle.std.specs.Prelude.{◌≡◌, ◌+◌, leb};
ghost use Rattle.refusals.specs.Cross.{cross_window, log2};
ghost use Rattle.refusals.specs.Refusals.{side_ok, block_size_ok, block_ok, search_ok, window_ok};
ghost use Rattle.refusals.specs.Refusals.{threshold_ok, place_ok, pair_refusal, request_refusal, setting_of};
ghost use Rattle.refusals.specs.Numbers.{number_of, number_in};

use frame::Setting;

// A request for a search: the frames' width and height, N, the search 1 to 4, its window w, the threshold T of search 4, and the measure.
#[repr(C)]
#[derive(Clone, Copy)]
pub struct Request {
    pub width: usize,
    pub height: usize,
    pub n: usize,
    pub search: u32,
    pub w: usize,
    pub t: u32,
    pub measure: u32,
}

// Why a call is turned away, by the paper's numbers: `number_of` of specs/Numbers.antt.
#[derive(Clone, Copy, Debug, PartialEq, Eq)]
pub enum Refusal {
    Side, // 1: width or height
    Length, // 2: of a frame
    BlockSize, // 3: N
    Search, // 4
    Window, // 5: w
    Threshold, // 6: T
    Place, // 7: of a block or a row view
    Vector, // 8: no candidate
    Table, // 9: too short
    List, // 10: too short
    Homing, // 11: the place
    ViewSide, // 12: of a row view
    Entry, // 16: a block in a list
    Buffer, // 19: shorter than the log
    NotHomed, // 31
    NoStep, // 32: the steps have ended, or the travels held are at fault
    OutOfRange, // 33: the new place
    Measure, // 51
    NoVoter, // 52
}

impl From<Refusal> for u32 {
    ghost from_gives = { λ r n. n ≡ number_of r };

    fn from(r: Refusal) -> u32 {
        match r {
            Refusal::Side => 1,
            Refusal::Length => 2,
            Refusal::BlockSize => 3,
            Refusal::Search => 4,
            Refusal::Window => 5,
            Refusal::Threshold => 6,
            Refusal::Place => 7,
            Refusal::Vector => 8,
            Refusal::Table => 9,
            Refusal::List => 10,
            Refusal::Homing => 11,
            Refusal::ViewSide => 12,
            Refusal::Entry => 16,
            Refusal::Buffer => 19,
            Refusal::NotHomed => 31,
            Refusal::NoStep => 32,
            Refusal::OutOfRange => 33,
            Refusal::Measure => 51,
            Refusal::NoVoter => 52,
        }
    }
}

// The setting of a request.
pub fn setting_of(q: Request) -> Setting
    ensures { result ≡ setting_of q }
{
    frame::setting_by(q.width, q.height, q.n, q.measure)
}

// ---- the rules

// 1: a width or a height is 4 to 1,024.
pub fn side_ok(a: usize) -> bool
    ensures { result ≡ side_ok a }
{
    if a < 4 {
        return false;
    }
    a <= 1024
}

// 3: N is 4, 8, 16 or 32.
pub fn block_size_ok(n: usize) -> bool
    ensures { result ≡ block_size_ok n }
{
    if n == 4 {
        return true;
    }
    if n == 8 {
        return true;
    }
    if n == 16 {
        return true;
    }
    n == 32
}

// 3: N is allowed, and at most width and height.
pub fn block_ok(s: Setting) -> bool
    ensures { result ≡ block_ok s }
{
    if !block_size_ok(s.n) {
        return false;
    }
    if s.width < s.n {
        return false;
    }
    s.n <= s.height
}

// 4: the search is 1 to 4.
pub fn search_ok(search: u32) -> bool
    ensures { result ≡ search_ok search }
{
    if search < 1 {
        return false;
    }
    search <= 4
}

// w is 2, 4, 8 or 16: in that range, and with just one bit set.
pub fn cross_window(w: usize) -> bool
    ensures { result ≡ cross_window w }
{
    if w < 2 {
        return false;
    }
    if 16 < w {
        return false;
    }
    usize::count_ones(w) == 1
}

// log2 of a number with one bit set: a window of search 4, or N.
pub fn log2_window(w: usize) -> u32
    ensures { result ≡ log2 w }
{
    usize::trailing_zeros(w)
}

// 5: the search takes the window w.
pub fn window_ok(search: u32, w: usize) -> bool
    ensures { result ≡ window_ok search w }
{
    if search <= 2 {
        return w <= 16;
    }
    if search == 3 {
        return w == 7;
    }
    cross_window(w)
}

// 6: the search takes the threshold T, by the measure.
pub fn threshold_ok(search: u32, measure: u32, t: u32) -> bool
    ensures { result ≡ threshold_ok search measure t }
{
    if search == 4 {
        return t <= frame::largest_distortion(measure);
    }
    t == 0
}

// n pels from place `at` on lie in a row or a column of `all` pels.
fn lies_in(at: usize, n: usize, all: usize) -> bool
    ensures { result ≡ leb (at + n) all }
{
    if all < n {
        return false;
    }
    at <= all - n
}

// 7: the block at row y, column x lies wholly inside the frame.
pub fn place_ok(s: Setting, y: usize, x: usize) -> bool
    ensures { result ≡ place_ok s y x }
{
    if !lies_in(y, s.n, s.height) {
        return false;
    }
    lies_in(x, s.n, s.width)
}

// The first of 1 2 3 that applies to frames of these lengths, if one does.
pub fn pair_refusal(older: usize, newer: usize, s: Setting) -> Result<(), Refusal>
    ensures { number_in result ≡ pair_refusal older newer s }
{
    if !side_ok(s.width) {
        return Err(Refusal::Side);
    }
    if !side_ok(s.height) {
        return Err(Refusal::Side);
    }
    let whole = s.height * s.width;
    if older != whole {
        return Err(Refusal::Length);
    }
    if newer != whole {
        return Err(Refusal::Length);
    }
    if !block_ok(s) {
        return Err(Refusal::BlockSize);
    }
    Ok(())
}

// The first of 1 2 3 4 51 5 6 that applies to a request, if one does.
pub fn request_refusal(older: usize, newer: usize, q: Request) -> Result<(), Refusal>
    ensures { number_in result ≡ request_refusal older newer q }
{
    pair_refusal(older, newer, setting_of(q))?;
    let search = search_ok(q.search);
    let measure = measures::measure_ok(q.measure);
    let window = window_ok(q.search, q.w);
    let threshold = threshold_ok(q.search, q.measure, q.t);
    if !search {
        return Err(Refusal::Search);
    }
    if !measure {
        return Err(Refusal::Measure);
    }
    if !window {
        return Err(Refusal::Window);
    }
    if !threshold {
        return Err(Refusal::Threshold);
    }
    Ok(())
}
