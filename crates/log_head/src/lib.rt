// A log's head and blocks: the rules for a head's numbers, and for what a block may be in a log with that head.

#![tactic(auto)]

ghost use Rattle.std.specs.Prelude.{◌≡◌, ◌≤◌, ◌<◌, pos};
ghost use Rattle.frame.specs.Pictures.{Fitting};
ghost use Rattle.frame.specs.Grid.{blocks};
ghost use Rattle.refusals.specs.Numbers.{number_in};
ghost use Rattle.log_head.specs.Heads.{no_head, setting_in, head_refusal, head_blocks, largest_in};
ghost use Rattle.log_head.specs.Heads.{candidate_ok, entry_ok, is_still};

use frame::Setting;
use refusals::Refusal;

// A head's numbers.
#[repr(C)]
#[derive(Clone, Copy)]
pub struct Head {
    pub width: usize,
    pub height: usize,
    pub n: usize,
    pub w: usize,
    pub search: u32,
    pub measure: u32,
}

// A head of zeros.
pub fn no_head() -> Head
    ensures { result ≡ no_head }
{
    Head {
        width: 0,
        height: 0,
        n: 0,
        w: 0,
        search: 0,
        measure: 0,
    }
}

// The setting of a head.
pub fn setting_in(h: Head) -> Setting
    ensures { result ≡ setting_in h }
{
    frame::setting_by(h.width, h.height, h.n, h.measure)
}

// The first of 1 3 4 51 5 that applies to a head's numbers, if one does.
pub fn head_refusal(h: Head) -> Result<(), Refusal>
    ensures { number_in result ≡ head_refusal h }
{
    if !refusals::side_ok(h.width) {
        return Err(Refusal::Side);
    }
    if !refusals::side_ok(h.height) {
        return Err(Refusal::Side);
    }
    if !refusals::block_ok(setting_in(h)) {
        return Err(Refusal::BlockSize);
    }
    let search = refusals::search_ok(h.search);
    let measure = measures::measure_ok(h.measure);
    let window = refusals::window_ok(h.search, h.w);
    if !search {
        return Err(Refusal::Search);
    }
    if !measure {
        return Err(Refusal::Measure);
    }
    if !window {
        return Err(Refusal::Window);
    }
    Ok(())
}

// How many blocks the head's grid has.
pub fn head_blocks(h: Head) -> usize
    requires { head_refusal h ≡ 0 }
    ensures { (result ≡ head_blocks h) × (result ≤ 1048576) }
{
    frame::block_count(setting_in(h))
}

// The largest distortion in a log with this head.
fn largest_in(h: Head) -> u32
    requires { head_refusal h ≡ 0 }
    ensures { result ≡ largest_in h }
{
    (h.n * h.n) as u32 * measures::most(h.measure)
}

// The vector is a candidate of window w for grid block k.
pub fn candidate_ok(s: Setting, w: usize, k: usize, dy: i32, dx: i32) -> bool
    requires { Fitting s × (k < blocks s) }
    ensures { result ≡ candidate_ok s w k dy dx }
{
    let row = frame::block_row(s, k);
    let column = frame::block_column(s, k);
    frame::is_candidate(s, w, row, column, dy, dx)
}

// 16: what grid block k may have: a candidate and its distortion, which a log's bytes cannot have below 0.
pub fn block_ok(h: Head, k: usize, dy: i32, dx: i32, distortion: usize) -> bool
    requires { (head_refusal h ≡ 0) × (k < head_blocks h) }
    ensures { result ≡ entry_ok h k dy dx (pos distortion) }
{
    if !candidate_ok(setting_in(h), h.w, k, dy, dx) {
        return false;
    }
    distortion <= largest_in(h) as usize
}

// The same of three numbers of a list.
pub fn entry_ok(h: Head, k: usize, dy: i32, dx: i32, distortion: i32) -> bool
    requires { (head_refusal h ≡ 0) × (k < head_blocks h) }
    ensures { result ≡ entry_ok h k dy dx distortion }
{
    if distortion < 0 {
        return false;
    }
    block_ok(h, k, dy, dx, distortion.unsigned_abs() as usize)
}

// (0,0) with distortion 0.
pub fn is_still(dy: i32, dx: i32, distortion: i32) -> bool
    ensures { result ≡ is_still dy dx distortion }
{
    if dy != 0 {
        return false;
    }
    if dx != 0 {
        return false;
    }
    distortion == 0
}
