// Voters: whether a block of the newer frame has contrast enough for its vector to count.

#![tactic(auto)]

ghost use Rattle.std.specs.Prelude.{◌≡◌, ◌+◌, ◌*◌, ◌%◌, ◌≤◌, ◌<◌, length};
ghost use Rattle.distortion.specs.Blocks.{block_at};
ghost use Rattle.frame.specs.Grid.{blocks, block_row, block_column};
ghost use Rattle.voter.specs.Voter.{is_voter, Framed, Standing};

use frame::Setting;

// Whether the largest of N rows of N pels exceeds the smallest by 8 or more, in a frame that begins with them. It goes column by column and down by two
// rows: p is the place of the next pel of column j, least and most are the column's so far, low and high those of the columns before. So the
// compiler looks at all columns at once, a row an instruction, and where it does not, each pel waits for few others.
fn differs<const N: usize>(newer: &[u8], width: usize) -> bool
    requires { (N * width + N ≤ length newer.now + width) × (width ≤ 1024) × (N ≤ 64) × (N % 2 ≡ 0) }
    ensures { result ≡ is_voter N (block_at newer.now width 0 0) }
{
    let mut low: u8 = 255;
    let mut high: u8 = 0;
    for j in 0..N {
        let mut least: u8 = 255;
        let mut most: u8 = 0;
        let mut p = j;
        for _pair in 0..N / 2 {
            let upper = newer[p];
            let lower = newer[p + width];
            least = least.min(upper.min(lower));
            most = most.max(upper.max(lower));
            p = p + width + width;
        }
        low = low.min(least);
        high = high.max(most);
    }
    low as u32 + 8 <= high as u32
}

// Whether the block of the newer frame at row y, column x votes. For each N the compiler makes code of its own.
pub fn is_voter(newer: &[u8], s: Setting, y: usize, x: usize) -> bool
    requires { Standing (length newer.now) s y x }
    ensures { result ≡ is_voter s.n (block_at newer.now s.width y x) }
{
    let a = y * s.width + x;
    let here = &newer[a..];
    match s.n {
        4 => differs::<4>(here, s.width),
        8 => differs::<8>(here, s.width),
        16 => differs::<16>(here, s.width),
        _ => differs::<32>(here, s.width),
    }
}

// Whether grid block k of the newer frame votes.
pub fn is_voter_at(newer: &[u8], s: Setting, k: usize) -> bool
    requires { Framed (length newer.now) s × (k < blocks s) }
    ensures { result ≡ is_voter s.n (block_at newer.now s.width (block_row s k) (block_column s k)) }
{
    let y = frame::block_row(s, k);
    let x = frame::block_column(s, k);
    is_voter(newer, s, y, x)
}
