// The measures of a difference: 1 absolute, 2 squares.

#![tactic(auto)]

ghost use Rattle.std.specs.Prelude.{◌≡◌, ◌*◌, ◌≤◌};
ghost use Rattle.signed.specs.Values.{abs_diff};
ghost use Rattle.measures.specs.Measures.{measure_ok, measure_of};

pub const ABSOLUTE: u32 = 1;

pub const SQUARES: u32 = 2;

// 51: the measure is 1 or 2.
pub fn measure_ok(measure: u32) -> bool
    ensures { result ≡ measure_ok measure }
{
    if measure < ABSOLUTE {
        return false;
    }
    measure <= SQUARES
}

// How far two pels differ at most.
pub fn most(measure: u32) -> u32
    ensures { (result ≡ (measure_of measure).most) × (result ≤ 65025) }
{
    if measure == ABSOLUTE {
        return 255;
    }
    65025
}

// How two pels differ.
pub fn pel_difference(measure: u32, a: u8, b: u8) -> u32
    ensures { (result ≡ (measure_of measure).diff a b) × (result ≤ (measure_of measure).most) }
{
    if measure == ABSOLUTE {
        return signed::abs_diff(a, b);
    }
    let d = u32::from(a.abs_diff(b)); // as a byte: the compiler has its best code for a square of that
    d * d
}

// How two sums of pels differ.
pub fn sum_difference(measure: u32, a: u32, b: u32) -> u64
    requires { (a ≤ 2147483647) × (b ≤ 2147483647) }
    ensures { result ≡ (measure_of measure).diff a b }
{
    let apart = signed::abs_diff_u32(a, b) as u64;
    if measure == ABSOLUTE {
        return apart;
    }
    apart * apart
}

// How far a distance at m may go for the bound e.
pub fn limit(measure: u32, m: usize, e: u32) -> u64
    requires { m ≤ 1024 }
    ensures { result ≡ (measure_of measure).limit m e }
{
    if measure == ABSOLUTE {
        return e as u64;
    }
    (m * m) as u64 * (e as u64)
}
