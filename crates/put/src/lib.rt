// Bytes and decimal digits put into a lent buffer, where a byte past the end is counted and not put, and a block's numbers put into a lent
// list.

#![tactic(auto)]

ghost use Rattle.std.specs.Prelude.{◌≡◌, [], ◌∷◌, ◌+◌, ◌≤◌, ◌<◌, pos, length};
ghost use Rattle.put.specs.Put.{Put};
ghost use Rattle.put.specs.Digits.{digits, decimal};

// One byte at place `at`. Answers with the next place.
pub fn put_byte(out: &mut [u8], at: usize, b: u8) -> usize
    requires { at < 1099511627776 }
    ensures { Put out.old at (b ∷ []) out.new result }
{
    if at < out.len() {
        out[at] = b;
        return at + 1;
    }
    at + 1
}

// A block's three numbers in a list, from place `at` on. Answers with the next place.
pub fn put_entry(list: &mut [i32], at: usize, dy: i32, dx: i32, distortion: u32) -> usize
    requires { (at + 3 ≤ length list.old) × (distortion ≤ 2147483647) }
    ensures { Put list.old at (dy ∷ dx ∷ pos distortion ∷ []) list.new result }
{
    list[at] = dy;
    list[at + 1] = dx;
    list[at + 2] = distortion as i32;
    at + 3
}

// The byte of a digit.
fn digit(n: usize) -> u8
    requires { n < 10 }
    ensures { result ≡ 48 + n }
{
    48 + n as u8
}

// The decimal digits of n, at most so many.
fn put_digits(out: &mut [u8], at: usize, n: usize, most: usize) -> usize
    requires { (at + most ≤ 1000001020) × (most ≤ 20) }
    ensures { Put out.old at (digits most n) out.new result }
{
    if most == 0 {
        return at;
    }
    if n < 10 {
        return put_byte(out, at, digit(n));
    }
    let k = put_digits(out, at, n / 10, most - 1);
    put_byte(out, k, digit(n % 10))
}

// The decimal digits of n. Most numbers have one.
pub fn put_number(out: &mut [u8], at: usize, n: usize) -> usize
    requires { at ≤ 1000001000 }
    ensures { Put out.old at (decimal n) out.new result }
{
    if n < 10 {
        return put_byte(out, at, digit(n));
    }
    put_digits(out, at, n, 20)
}
