// What all elements of a field share. The trace is read off by a mask, which is made once: it is the parity of the ones that an element and the
// mask share.
ghost use Rattle.std.specs.Prelude.{◌≡◌, ◌^◌, ◌<◌, ◌==◌};
ghost use Rattle.field.specs.Field.{trace};
ghost use Rattle.elements.specs.Fields.{FieldOf, FieldOf-prop};
ghost use Rattle.elements.specs.Traces.{trace_mask};

use super::squares::Squares;

// An accepted f, its degree n, and the mask from which traces modulo f are read.
#[derive(Clone, Copy)]
pub struct Modulus {
    pub f: u64,
    pub n: u32,
    pub mask: u64,
    pub ghost of_field: { FieldOf f n } by { FieldOf-prop f n },
    pub ghost of_mask: { mask ≡ trace_mask f n },
}

impl Modulus {
    // The mask is made by the squares modulo f.
    pub fn new(squares: &Squares) -> Self
        ensures { (result.f ≡ squares.now.f) × (result.n ≡ squares.now.n) }
    {
        Modulus {
            f: squares.f,
            n: squares.n,
            mask: squares.trace_mask(),
        }
    }

    // Whether a has trace 1.
    pub fn has_trace(self, a: u64) -> bool
        requires { a < 2 ^ self.n }
        ensures { result ≡ (trace self.f self.n a == 1) }
    {
        u64::count_ones(a & self.mask) % 2 == 1
    }
}
