// A vector of window 16, as searches 3 and 4 keep it.

ghost use Rattle.std.specs.Prelude.{◌≤◌};

// The parts of a vector of window 16, kept as dy + 16 and dx + 16.
#[derive(Clone, Copy)]
pub struct Point {
    pub y: usize,
    pub x: usize,
    ghost inside: { (y ≤ 32) × (x ≤ 32) },
}
