// Powers of x.
ghost use Rattle.std.specs.Prelude.{◌≡◌, ◌^◌, ◌<◌};

// x^k, which as a number is 2^k.
pub fn power(k: usize) -> u64
    requires { k < 64 }
    ensures { result ≡ 2 ^ k }
{
    1u64 << k
}
