// The number of binary digits.
ghost use Rattle.std.specs.Prelude.{◌+◌, ◌*◌, ◌^◌, ◌≤◌, ◌<◌};

// The number of binary digits of x, which is 0 for 0.
pub fn width(x: u64) -> usize
    ensures { (x < 2 ^ result) × (2 ^ result ≤ 2 * x + 1) }
{
    (64 - u64::leading_zeros(x)) as usize
}
