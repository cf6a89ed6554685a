// A polynomial whose degree is in range, with that degree: what refusal 1 leaves, and what the calls work modulo. Its maker is in `judging`.
ghost use Rattle.field.specs.Accepted.{InRange};

// f, and its degree n, which is 2 to LIMIT.
#[derive(Clone, Copy)]
pub struct Ring {
    pub f: u64,
    pub n: u32,
    pub ghost in_range: { InRange f n },
}
