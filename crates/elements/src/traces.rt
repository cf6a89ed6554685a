// The traces of the powers of x, as a mask. `Modulus` reads the trace of every element off it.
ghost use Rattle.std.specs.Prelude.{◌≡◌, ◌^◌, ◌<◌};
ghost use Rattle.field.specs.Field.{trace};
ghost use Rattle.elements.specs.Traces.{trace_mask};

use super::squares::Squares;
use gf2::{picked, power};

impl Squares {
    // The sum of the n conjugates of a.
    fn trace_of(&self, a: u64) -> u64
        requires { a < 2 ^ self.now.n }
        ensures { result ≡ trace self.now.f self.now.n a }
    {
        let mut sum: u64 = 0;
        let mut y = a;
        for i in 0..self.n {
            sum = sum ^ y;
            y = self.square(y);
        }
        sum
    }

    // Bit i is the trace of x^i.
    pub fn trace_mask(&self) -> u64
        ensures { result ≡ trace_mask self.now.f self.now.n }
    {
        let mut mask: u64 = 0;
        for i in 0..self.n as usize {
            let x = power(i);
            mask = mask ^ picked(self.trace_of(x) % 2, x);
        }
        mask
    }
}
