// Vectors and the preference order: the table of all vectors of window 16, and the vector at a place of it.
// specs/ has the rule and the table; proofs/Order.antt shows that the table has each vector of window 16, once, in the rule's order.
// A caller asks for the table once and lends it down: each use of the constant copies it.

#![tactic(auto)]

mod preference;

ghost use Rattle.std.specs.Prelude.{◌≡◌, ◌<◌};
ghost use Rattle.order.specs.Preference.{preference, preferred, flat};
ghost use Rattle.order.specs.Vectors.{vector_count};

use preference::ORDER;

// How many vectors window 16 has, and how many numbers the table of them: two a vector.
pub const VECTORS: usize = 1089;

pub const NUMBERS: usize = 2 * VECTORS;

// A motion vector: how far down and how far to the right the older block stands from the newer one.
#[derive(Clone, Copy)]
pub struct Vector {
    pub dy: i32,
    pub dx: i32,
}

// The table: the 1,089 vectors in preference order, dy and dx of each in turn.
pub fn table() -> [i32; NUMBERS]
    ensures { result ≡ flat preference }
{
    ORDER
}

// The vector at place k of the table.
pub fn vector_at(order: &[i32; NUMBERS], k: usize) -> Vector
    requires { (order.now ≡ flat preference) × (k < vector_count) }
    ensures { result ≡ preferred k }
{
    let dy = order[2 * k];
    let dx = order[2 * k + 1];
    Vector { dy, dx }
}
