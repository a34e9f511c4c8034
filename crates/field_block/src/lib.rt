// A grid block of a field: what the requested search answers there, and the sums over the blocks so far.

#![tactic(auto)]

ghost use Rattle.std.specs.Prelude.{◌≡◌, ◌<◌, length};
ghost use Rattle.frame.specs.Pictures.{pair_of};
ghost use Rattle.frame.specs.Grid.{blocks};
ghost use Rattle.refusals.specs.Refusals.{request_refusal, setting_of};
ghost use Rattle.field_block.specs.Blocks.{search_at, Sound, join, Bounded};

use frame::SearchBlock;
use refusals::Request;
use search::{Matching, SearchResult};

// Counts, dropped and voters, summed over the blocks so far.
#[derive(Clone, Copy)]
pub struct Total {
    pub counts: [u32; frame::COUNTS],
    pub dropped: u32,
    pub voters: u32,
}

// What the requested search answers at grid block k. Search 2 is called here and by the single-block call: so the compiler keeps its memory out of both,
// and the other searches do not pay for it.
pub fn search_at(older: &[u8], newer: &[u8], q: Request, k: usize) -> SearchResult
    requires { (request_refusal (length older.now) (length newer.now) q ≡ 0) × (k < blocks (setting_of q)) }
    ensures { (result ≡ search_at (pair_of older.now newer.now (setting_of q)) q k) × Sound result }
{
    let s = refusals::setting_of(q);
    let y = frame::block_row(s, k);
    let x = frame::block_column(s, k);
    if q.search == 2 {
        return pruned::search(Matching {
            older,
            newer,
            block: SearchBlock {
                setting: s,
                w: q.w,
                y,
                x,
            },
        });
    }
    block::search_block(older, newer, q, y, x)
}

// The sums with one block more, a voter or not.
pub fn join(s: Total, f: SearchResult, voting: bool) -> Total
    requires { Bounded s × Sound f }
    ensures { result ≡ join s f voting }
{
    let more = f.counts;
    let mut counts = s.counts;
    for i in 0..frame::COUNTS {
        counts[i] += more[i];
    }
    Total {
        counts,
        dropped: s.dropped + f.dropped,
        voters: s.voters + voting as u32,
    }
}
