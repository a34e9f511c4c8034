// Signed numbers: every signed operation of the gauge, each with its result as an equation. Where a caller of the gauge may hand in any number,
// no function asks anything of it.

#![tactic(auto)]

ghost use Rattle.std.specs.Prelude.{◌≡◌, ◌≤◌, ◌<◌, leb, nat_abs, neg_ℤ, ◌+ℤ◌, ◌-ℤ◌};
ghost use Rattle.signed.specs.Values.{abs_diff, shifted_by, moved_by, bias, unbias, doubled, signed_byte, byte_of};

// |a - b| of two sums of pels. By a signed difference: the compiler has its best code for that.
pub fn abs_diff_u32(a: u32, b: u32) -> u32
    requires { (a ≤ 2147483647) × (b ≤ 2147483647) }
    ensures { result ≡ abs_diff a b }
{
    ((a as i32) - (b as i32)).unsigned_abs()
}

// |a - b| of two pels.
pub fn abs_diff(a: u8, b: u8) -> u32
    ensures { (result ≡ abs_diff a b) × (result ≤ 255) }
{
    abs_diff_u32(a as u32, b as u32)
}

// |d| is at most w: d lies in -w ..= w.
pub fn within(d: i32, w: usize) -> bool
    ensures { result ≡ leb (nat_abs d) w }
{
    d.unsigned_abs() as usize <= w
}

// A sum with one number more and one less.
pub fn exchanged(sum: i32, more: i32, less: i32) -> i32
    requires { (nat_abs sum ≤ 1000000) × (nat_abs more ≤ 1000000) × (nat_abs less ≤ 1000000) }
    ensures { result ≡ (sum +ℤ more) -ℤ less }
{
    sum + more - less
}

// at + d, where that lies in 0 ..= last.
pub fn shift(at: usize, d: i32, last: usize) -> Option<usize>
    ensures { result ≡ shifted_by at d last }
{
    let m = d.unsigned_abs() as usize;
    if d < 0 {
        if at < m {
            return None;
        }
        if last < at - m {
            return None;
        }
        return Some(at - m);
    }
    if last < at {
        return None;
    }
    if last - at < m {
        return None;
    }
    Some(at + m)
}

// d + 16, as an unsigned number.
pub fn biased(d: i32) -> usize
    requires { nat_abs d ≤ 16 }
    ensures { result ≡ bias 16 d }
{
    (d + 16) as usize
}

// u - 16.
pub fn unbiased(u: usize) -> i32
    requires { u ≤ 32 }
    ensures { result ≡ unbias 16 u }
{
    (u as i32) - 16
}

// d whole pels and u - 1 half ones, in half pels.
pub fn half_part(d: i32, u: usize) -> i32
    requires { (nat_abs d ≤ 16) × (u ≤ 2) }
    ensures { result ≡ doubled d +ℤ unbias 1 u }
{
    d + d + ((u as i32) - 1)
}

// y - d, that is y moved by the reverse of d, where that lies in -1,000,000 ..= 1,000,000.
pub fn minus_travel(y: i32, d: i32) -> Option<i32>
    ensures { result ≡ moved_by y (neg_ℤ d) }
{
    let s = (y as i64) - (d as i64);
    if s < -1000000 {
        return None;
    }
    if 1000000 < s {
        return None;
    }
    Some(s as i32)
}

// The number whose two's complement is the byte b.
#[tactic(auto, unfolding(crate::specs::Values::signed_byte))]
pub fn from_byte(b: u8) -> i32
    ensures { result ≡ signed_byte b }
{
    i32::from(b.cast_signed())
}

// The two's complement of d in a byte.
pub fn to_byte(d: i32) -> u8
    requires { nat_abs d < 128 }
    ensures { result ≡ byte_of d }
{
    (d as i8).cast_unsigned()
}
