// The measuring call: the distortion of one vector at one place under a ceiling, and the number of rows measured.

#![tactic(auto)]

ghost use Rattle.std.specs.Prelude.{◌≡◌, ◌+◌, ◌*◌, ◌≤◌, length};
ghost use Rattle.order.specs.Vectors.{vec};
ghost use Rattle.measures.specs.Measures.{measure_of};
ghost use Rattle.frame.specs.Pictures.{pair_of};
ghost use Rattle.refusals.specs.Numbers.{number_of};
ghost use Rattle.distortion.specs.Blocks.{block_at, row_from, rows_from, BlockRows, Comparable};
ghost use Rattle.measuring.specs.Measurement.{rows_measured, measurement};
ghost use Rattle.measuring.specs.Measured.{answer_of, measure_vector, refused_by};

use frame::Setting;
use refusals::Refusal;

// The distortion where it is at most the ceiling, else that it is over; and in either case how many rows were measured. So it is no Option: None would
// lose the rows.
#[derive(Clone, Copy)]
pub enum Measurement {
    Within(u32, u32),
    Over(u32),
}

// What the measuring call answers. `over` is 1 where the distortion passes the ceiling.
#[repr(C)]
#[derive(Clone, Copy)]
pub struct Measured {
    pub refusal: u32,
    pub distortion: u32,
    pub over: u32,
    pub rows: u32,
}

// A row of n pels at places a and b.
fn row(older: &[u8], newer: &[u8], measure: u32, a: usize, b: usize, n: usize) -> u32
    requires { (a + n ≤ length newer.now) × (b + n ≤ length older.now) × (n ≤ 64) }
    ensures { (result ≡ row_from (measure_of measure) older.now newer.now a b n) × (result ≤ n * (measure_of measure).most) }
{
    let mut sum: u32 = 0;
    for j in 0..n {
        sum += measures::pel_difference(measure, newer[a + j], older[b + j]);
    }
    sum
}

// The first row at whose end the sum passes the ceiling, else N, of the blocks that begin at places a and b. p and q are the places of the next row.
fn rows_measured(older: &[u8], newer: &[u8], s: Setting, a: usize, b: usize, ceiling: u32) -> usize
    requires { BlockRows older.now newer.now s.width s.n a b }
    ensures { (result ≡ rows_measured ceiling (rows_from (measure_of s.measure) older.now newer.now s.width a b s.n) s.n) × (result ≤ s.n) }
{
    let width = s.width;
    let n = s.n;
    let mut sum: u32 = 0;
    let mut p = a;
    let mut q = b;
    for rows in 0..n {
        if ceiling < sum {
            return rows;
        }
        sum += row(older, newer, s.measure, p, q, n);
        p += width;
        q += width;
    }
    n
}

// The newer block at row y, column x against the older block at row r, column c, under the ceiling. The searches' kernel tells whether it is over; which
// row passed is worked out afterwards.
fn measure_block(
    older: &[u8],
    newer: &[u8],
    s: Setting,
    y: usize,
    x: usize,
    r: usize,
    c: usize,
    ceiling: u32,
) -> Measurement
    requires { Comparable older.now newer.now s y x r c }
    ensures { result ≡ measurement (measure_of s.measure) ceiling s.n (block_at newer.now s.width y x) (block_at older.now s.width r c) }
{
    let Some(d) = distortion::block_up_to(older, newer, s, y, x, r, c, ceiling) else {
        let width = s.width;
        let rows = rows_measured(older, newer, s, y * width + x, r * width + c, ceiling);
        return Measurement::Over(rows as u32);
    };
    Measurement::Within(d, s.n as u32)
}

// A refused answer: the number, and zeros.
fn refused(refusal: Refusal) -> Measured
    ensures { result ≡ refused_by (number_of refusal) }
{
    Measured {
        refusal: refusal.into(),
        distortion: 0,
        over: 0,
        rows: 0,
    }
}

// An accepted answer.
fn answer_of(m: Measurement) -> Measured
    ensures { result ≡ answer_of m }
{
    match m {
        Measurement::Within(distortion, rows) => Measured {
            refusal: 0,
            distortion,
            over: 0,
            rows,
        },
        Measurement::Over(rows) => Measured {
            refusal: 0,
            distortion: 0,
            over: 1,
            rows,
        },
    }
}

// Measures one vector under a ceiling: the newer block at row y, column x against the older block at (y + dy, x + dx).
pub fn measure(
    older: &[u8],
    newer: &[u8],
    s: Setting,
    y: usize,
    x: usize,
    dy: i32,
    dx: i32,
    ceiling: u32,
) -> Measured
    ensures { result ≡ measure_vector (pair_of older.now newer.now s) y x (vec dy dx) ceiling }
{
    if let Err(refusal) = refusals::pair_refusal(older.len(), newer.len(), s) {
        return refused(refusal);
    }
    if !measures::measure_ok(s.measure) {
        return refused(Refusal::Measure);
    }
    if !refusals::place_ok(s, y, x) {
        return refused(Refusal::Place);
    }
    let Some((r, c)) = frame::older_at(s, 16, y, x, dy, dx) else {
        return refused(Refusal::Vector);
    };
    answer_of(measure_block(older, newer, s, y, x, r, c, ceiling))
}
