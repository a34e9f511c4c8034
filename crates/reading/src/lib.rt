// The reading: the vector that most voters have, with its votes, by one vote a voter and one walk along the preference order.

#![tactic(auto)]

ghost use Rattle.std.specs.Prelude.{◌≡◌, ◌<◌, length, get_or};
ghost use Rattle.order.specs.Preference.{preference, flat};
ghost use Rattle.order.specs.Vectors.{Within, vector_count};
ghost use Rattle.reading.specs.Tally.{code, voted, reading_in};

use order::Vector;

// The vector of most voters, with its votes.
#[derive(Clone, Copy)]
pub struct Reading {
    pub dy: i32,
    pub dx: i32,
    pub votes: u32,
}

// A vector's place among the votes.
fn code_of(v: Vector) -> usize
    requires { Within 16 v }
    ensures { (result ≡ code v) × (result < vector_count) }
{
    signed::biased(v.dy) * 33 + signed::biased(v.dx)
}

// One vote more for v, of a block that votes.
pub fn vote(votes: &mut [u32; order::VECTORS], v: Vector, voting: bool)
    requires { Within 16 v × (length votes.old ≡ vector_count) × (get_or votes.old (code v) 0 < 4294967295) }
    ensures { votes.new ≡ voted votes.old v voting }
{
    let c = code_of(v);
    votes[c] += voting as u32;
}

// The vector of most votes, the first in preference order where several are equal.
pub fn reading_of(order: &[i32; order::NUMBERS], votes: &[u32; order::VECTORS]) -> Reading
    requires { order.now ≡ flat preference }
    ensures { result ≡ reading_in votes.now }
{
    let mut best = order::vector_at(order, 0);
    let c = code_of(best);
    let mut most = votes[c];
    for k in 1..order::VECTORS {
        let v = order::vector_at(order, k);
        let e = code_of(v);
        let x = votes[e];
        if most < x {
            best = v;
            most = x;
        }
    }
    Reading {
        dy: best.dy,
        dx: best.dx,
        votes: most,
    }
}
