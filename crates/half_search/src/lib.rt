// The half-pel call: the single-block search, then the eight half-pel neighbours of its vector.

#![tactic(auto)]

ghost use Rattle.std.specs.Prelude.{◌≡◌, ◌≤◌, ◌<◌};
ghost use Rattle.signed.specs.Values.{unbias};
ghost use Rattle.frame.specs.Pictures.{pair_of};
ghost use Rattle.half_pel.specs.HalfPel.{half_inside};
ghost use Rattle.half_search.specs.Half.{neighbour_count, neighbour, refined, search_half};
ghost use Rattle.half_search.specs.Steps.{offset_of, Trying, try_at, Refining};

use frame::Setting;
use refusals::Request;
use search::SearchResult;

// What the half-pel call answers: the search's result, then the winner's vector in half pels, and its distortion.
#[repr(C)]
#[derive(Clone, Copy)]
pub struct HalfResult {
    pub found: SearchResult,
    pub dy: i32,
    pub dx: i32,
    pub distortion: u32,
}

// An offset in half pels, each part with 1 added.
#[derive(Clone, Copy)]
pub struct Offset {
    pub down: usize,
    pub across: usize,
}

// The winner by now: its place among the neighbours, and its distortion.
#[derive(Clone, Copy)]
pub struct Winner {
    pub place: usize,
    pub least: u32,
}

// The neighbours' offsets, each part with 1 added: the centre, then the eight in preference order.
const NEIGHBOURS: [Offset; 9] = [
    Offset { down: 1, across: 1 },
    Offset { down: 0, across: 1 },
    Offset { down: 1, across: 0 },
    Offset { down: 1, across: 2 },
    Offset { down: 2, across: 1 },
    Offset { down: 0, across: 0 },
    Offset { down: 0, across: 2 },
    Offset { down: 2, across: 0 },
    Offset { down: 2, across: 2 },
];

// The offset at place k of the neighbours.
fn neighbour(k: usize) -> Offset
    requires { k < neighbour_count }
    ensures { (offset_of result ≡ neighbour k) × (result.down ≤ 2) × (result.across ≤ 2) }
{
    NEIGHBOURS[k]
}

// n pels from a half-pel place on, which is kept with 1 added, have all that they need in a side of so many.
fn inside(place: usize, n: usize, side: usize) -> bool
    requires { (place ≤ 4096) × (n ≤ 1024) }
    ensures { result ≡ half_inside (unbias 1 place) n side }
{
    if place == 0 {
        return false;
    }
    let z = place - 1;
    z / 2 + (n + z % 2) <= side
}

// One neighbour is tried, at half-pel row p, column q, each with 1 added: the least so far is the ceiling, and only strictly smaller replaces.
fn try_at(
    older: &[u8],
    block: &[u8],
    s: Setting,
    p: usize,
    q: usize,
    k: usize,
    best: Winner,
) -> Winner
    requires { Trying older.now block.now s × (p ≤ 4096) × (q ≤ 4096) }
    ensures { result ≡ try_at older.now block.now s p q k best }
{
    if !inside(p, s.n, s.height) {
        return best;
    }
    if !inside(q, s.n, s.width) {
        return best;
    }
    let d = half_pel::half_sum(older, block, s, p - 1, q - 1, best.least);
    if d < best.least {
        return Winner { place: k, least: d };
    }
    best
}

// A search's result, refined.
fn refine(
    older: &[u8],
    newer: &[u8],
    s: Setting,
    y: usize,
    x: usize,
    found: SearchResult,
) -> HalfResult
    requires { Refining older.now newer.now s y x found }
    ensures { result ≡ refined (pair_of older.now newer.now s) y x found }
{
    let row = search::past(found.dy, y, 0);
    let column = search::past(found.dx, x, 0);
    let mut block = [0u8; half_pel::PELS];
    half_pel::half_block(newer, s, 2 * y, 2 * x, &mut block);
    let mut best = Winner {
        place: 0,
        least: found.distortion,
    };
    for k in 1..9 {
        let o = neighbour(k);
        best = try_at(
            older,
            &block,
            s,
            2 * row + o.down,
            2 * column + o.across,
            k,
            best,
        );
    }
    let o = neighbour(best.place);
    HalfResult {
        found,
        dy: signed::half_part(found.dy, o.down),
        dx: signed::half_part(found.dx, o.across),
        distortion: best.least,
    }
}

// Searches the block at row y, column x, and refines what is found.
pub fn search_half(older: &[u8], newer: &[u8], q: Request, y: usize, x: usize) -> HalfResult
    ensures { result ≡ search_half older.now newer.now q y x }
{
    let found = block::search_block(older, newer, q, y, x);
    if found.refusal != 0 {
        return HalfResult {
            found,
            dy: 0,
            dx: 0,
            distortion: 0,
        };
    }
    refine(older, newer, refusals::setting_of(q), y, x, found)
}
