// The travels that a track holds: the last 64, oldest first, and the sum of each part.

#![tactic(auto)]

ghost use Rattle.std.specs.Prelude.{◌≡◌, ◌≤◌, T, nat_abs, length};
ghost use Rattle.order.specs.Vectors.{vec, Within};
ghost use Rattle.recent.specs.Recent.{most_held, no_travels, sum_held, parts_ok, places_more, recent_ok, held_more, recent_more};
ghost use Rattle.recent.specs.Counting.{counted};

// How many travels a track holds at most.
pub const MOST: usize = 64;

// The travels held, oldest first: travel k is (dy[k], dx[k]); and the sum of each part. Two arrays and a number, for C has the track so.
#[repr(C)]
#[derive(Clone, Copy)]
pub struct Recent {
    pub held: u32,
    pub dy: [i32; MOST],
    pub dx: [i32; MOST],
    pub down: i32,
    pub across: i32,
}

// No travel: all places and sums 0.
pub fn no_travels() -> Recent
    ensures { result ≡ no_travels }
{
    let zeros = [0i32; MOST];
    Recent {
        held: 0,
        dy: zeros,
        dx: zeros,
        down: 0,
        across: 0,
    }
}

// A held part as it is added up: part + 16. One outside -16 ..= 16 counts for more than any 64 inside, so that no sum is true with it.
fn counted(z: i32) -> u32
    ensures { result ≡ counted z }
{
    if signed::within(z, 16) {
        signed::biased(z) as u32
    } else {
        65536
    }
}

// Whether each held one of these parts lies in -16 ..= 16, and their sum is this. The loop has no test, so that the compiler takes four at a time.
fn parts_ok(places: &[i32; MOST], held: usize, sum: i32) -> bool
    requires { (length places.now ≡ most_held) × (held ≤ most_held) }
    ensures { result ≡ parts_ok places.now held sum }
{
    let mut total: u32 = 0;
    for k in 0..held {
        total += counted(places[k]);
    }
    let Some(t) = signed::shift(16 * held, sum, 32 * MOST) else {
        return false;
    };
    t == total as usize
}

// Whether at most 64 are held, each held part lies in -16 ..= 16, and the sums are true.
pub fn recent_ok(r: Recent) -> bool
    ensures { result ≡ recent_ok r }
{
    let held = r.held as usize;
    if MOST < held {
        return false;
    }
    let down = r.down;
    if !parts_ok(&r.dy, held, down) {
        return false;
    }
    let across = r.across;
    parts_ok(&r.dx, held, across)
}

// One more held, of at most 64.
fn held_more(held: u32) -> u32
    ensures { result ≡ held_more held }
{
    if (held as usize) < MOST {
        held + 1
    } else {
        MOST as u32
    }
}

// One part more, in the next place; where all 64 are held, the oldest goes and the others move forward.
fn places_more(places: [i32; MOST], held: usize, z: i32) -> [i32; MOST]
    requires { held ≤ most_held }
    ensures { result ≡ places_more places held z }
{
    let mut next = places;
    if held < MOST {
        next[held] = z;
        return next;
    }
    // One by one: a move within one array would need memmove of the C library.
    for k in 0..MOST - 1 {
        next[k] = places[k + 1];
    }
    next[MOST - 1] = z;
    next
}

// The sum with one part more: where all 64 are held, less the oldest.
fn sum_more(places: [i32; MOST], held: usize, sum: i32, z: i32) -> i32
    requires { (held ≤ most_held) × T (parts_ok places held sum) × (nat_abs z ≤ 16) }
    ensures { result ≡ sum_held (places_more places held z) (held_more held) }
{
    if held < MOST {
        return signed::exchanged(sum, z, 0);
    }
    let oldest = places[0];
    signed::exchanged(sum, z, oldest)
}

// One travel more, (dy, dx): of the last 64, oldest first, and in the sums.
pub fn recent_more(r: Recent, dy: i32, dx: i32) -> Recent
    requires { T (recent_ok r) × Within 16 (vec dy dx) }
    ensures { result ≡ recent_more r (vec dy dx) }
{
    let held = r.held as usize;
    let down = r.dy;
    let across = r.dx;
    Recent {
        held: held_more(r.held),
        dy: places_more(down, held, dy),
        dx: places_more(across, held, dx),
        down: sum_more(down, held, r.down, dy),
        across: sum_more(across, held, r.across, dx),
    }
}
