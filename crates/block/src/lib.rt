// The single-block call: refusals 1 to 7 and 51, then the requested search, of a block at any pel row and column.

#![tactic(auto)]

ghost use Rattle.std.specs.Prelude.{◌≡◌};
ghost use Rattle.refusals.specs.Numbers.{number_of, number_in};
ghost use Rattle.search.specs.SearchResult.{refused_search};
ghost use Rattle.block.specs.Block.{search_refusal, search_block};

use frame::SearchBlock;
use refusals::{Refusal, Request};
use search::{Matching, SearchResult};

// The first of 1 2 3 4 51 5 6 7 that applies, if one does.
pub fn search_refusal(
    older: usize,
    newer: usize,
    q: Request,
    y: usize,
    x: usize,
) -> Result<(), Refusal>
    ensures { number_in result ≡ search_refusal older newer q y x }
{
    refusals::request_refusal(older, newer, q)?;
    if !refusals::place_ok(refusals::setting_of(q), y, x) {
        return Err(Refusal::Place);
    }
    Ok(())
}

fn refused_search(refusal: Refusal) -> SearchResult
    ensures { result ≡ refused_search (number_of refusal) }
{
    SearchResult {
        refusal: refusal.into(),
        dy: 0,
        dx: 0,
        distortion: 0,
        counts: search::only_at_one(0),
        dropped: 0,
    }
}

// Searches the block at row y, column x. The request names its search by a number, as C hands it in; an enum would be made of it and matched in the
// next line.
pub fn search_block(older: &[u8], newer: &[u8], q: Request, y: usize, x: usize) -> SearchResult
    ensures { result ≡ search_block older.now newer.now q y x }
{
    if let Err(refusal) = search_refusal(older.len(), newer.len(), q, y, x) {
        return refused_search(refusal);
    }
    let matching = Matching {
        older,
        newer,
        block: SearchBlock {
            setting: refusals::setting_of(q),
            w: q.w,
            y,
            x,
        },
    };
    if q.search == 3 {
        return four_step::search(matching);
    }
    if q.search == 4 {
        return cross::search(matching, q.t);
    }
    if q.search == 2 {
        return pruned::search(matching);
    }
    full::search(matching)
}
