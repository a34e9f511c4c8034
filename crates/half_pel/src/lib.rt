// Half pels: a frame's values between its pels, blocks of such values, and their distortion.

#![tactic(auto)]

ghost use Rattle.std.specs.Prelude.{◌≡◌, cond, ◌+◌, ◌≤◌, ◌<◌, T, length};
ghost use Rattle.base.specs.Lists.{fill_to};
ghost use Rattle.base.specs.Tests.{one};
ghost use Rattle.measures.specs.Measures.{measure_of};
ghost use Rattle.refusals.specs.Refusals.{block_size_ok};
ghost use Rattle.distortion.specs.Blocks.{block_at, distortion_by, UpTo};
ghost use Rattle.half_pel.specs.HalfPel.{between_two, between_four, value_from, half_block, half_rows, HalfReady};

use frame::Setting;

// The places of a row of an array that holds a block, and of the array: rows of the largest N.
const ROW: usize = frame::LARGEST_N;

pub const PELS: usize = ROW * ROW;

fn between_two(a: u8, b: u8) -> u8
    ensures { result ≡ between_two a b }
{
    (((a as u16) + (b as u16) + 1) / 2) as u8
}

fn between_four(a: u8, b: u8, c: u8, d: u8) -> u8
    ensures { result ≡ between_four a b c d }
{
    (((a as u16) + (b as u16) + (c as u16) + (d as u16) + 2) / 4) as u8
}

// The value at the pel that stands at place `at`, or halfway down to the next row, halfway across to the next column, or both.
fn value(frame: &[u8], width: usize, down: bool, across: bool, at: usize) -> u8
    requires { (at + cond down width 0 + one across < length frame.now) × (width ≤ 1024) × (length frame.now ≤ 1048576) }
    ensures { result ≡ value_from frame.now width down across at }
{
    if down {
        if across {
            return between_four(
                frame[at],
                frame[at + 1],
                frame[at + width],
                frame[at + width + 1],
            );
        }
        return between_two(frame[at], frame[at + width]);
    }
    if across {
        return between_two(frame[at], frame[at + 1]);
    }
    frame[at]
}

// n such values, from place `from` of the frame on, stored from place `at` on.
fn value_row(
    frame: &[u8],
    width: usize,
    down: bool,
    across: bool,
    from: usize,
    n: usize,
    half: &mut [u8],
    at: usize,
)
    requires { (from + n + cond down width 0 + one across ≤ length frame.now) × (at + n ≤ length half.old) × (length half.old ≤ 1048576) × (width ≤ 1024)
        × (length frame.now ≤ 1048576) }
    ensures { half.new ≡ fill_to half.old at (λ j. value_from frame.now width down across (from + j)) n }
{
    for j in 0..n {
        half[at + j] = value(frame, width, down, across, from + j);
    }
}

// The block at half-pel row p, column q, stored in the first rows of an array.
pub fn half_block(frame: &[u8], s: Setting, p: usize, q: usize, half: &mut [u8])
    requires { HalfReady frame.now s p q × (length half.old ≡ 1024) }
    ensures { half.new ≡ half_rows frame.now s.width p q half.old s.n }
{
    let mut from = p / 2 * s.width + q / 2;
    let mut at: usize = 0;
    for _i in 0..s.n {
        value_row(frame, s.width, p % 2 == 1, q % 2 == 1, from, s.n, half, at);
        from += s.width;
        at += ROW;
    }
}

// The distortion of a block that stands in the first rows of an array against the frame's block at half-pel row p, column q, as far as the ceiling goes.
pub fn half_sum(frame: &[u8], block: &[u8], s: Setting, p: usize, q: usize, ceiling: u32) -> u32
    requires { HalfReady frame.now s p q × T (block_size_ok s.n) × (length block.now ≡ 1024) }
    ensures { UpTo ceiling (distortion_by (measure_of s.measure) s.n (block_at block.now 32 0 0) (half_block frame.now s.width p q)) result }
{
    let mut half = [0u8; PELS];
    half_block(frame, s, p, q, &mut half);
    let kernel = distortion::kernel(s.measure, s.n);
    distortion::distortion_from(&half, block, ROW, kernel, 0, 0, ceiling)
}
