// A block matching: what a search goes through.

ghost use Rattle.distortion.specs.Blocks.{Bytes};
ghost use Rattle.search.specs.Target.{Ready};

use frame::SearchBlock;

// Two lent frames, and a block of the newer one that a search is ready for.
#[derive(Clone, Copy)]
pub struct Matching<'a> {
    pub older: &'a [u8],
    pub newer: &'a [u8],
    pub block: SearchBlock,
    ghost ready: { Ready older.now newer.now block },
    ghost bytes: { Bytes older.now × Bytes newer.now },
}
