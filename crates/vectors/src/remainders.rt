// What a call answers of words that arrive unreduced (document 02, §6) beside what it answers of their remainders, counted on one sheet. The
// remainder here is a plain long division, and not the library's.
ghost use Rattle.std.specs.Prelude.{◌≤◌, ◌<◌, ◌+◌};

use refusals::Refusal;
use std::array;

// How many words are tried.
const WORDS: usize = 60;

// Whether two calls are done with one number.
fn agree(left: Result<u64, Refusal>, right: Result<u64, Refusal>) -> bool {
    left.is_ok() && left == right
}

// A sheet on which words are tried, its polynomial f, and the degree n of that.
#[derive(Clone, Copy)]
pub(crate) struct Trial<'a> {
    sheet: &'a [u8],
    f: u64,
    n: u32,
    ghost small: { n ≤ 46 },
}

impl<'a> Trial<'a> {
    pub(crate) fn new(sheet: &'a [u8], f: u64, n: u32) -> Trial<'a>
        requires { n ≤ 46 }
    {
        Trial { sheet, f, n }
    }

    // What is left when the term x^(n + shift), if it is there, is taken away by f shifted up.
    fn without_term(&self, shift: u32, rest: u64) -> u64
        requires { self.now.n + shift < 64 }
    {
        if (rest >> (self.n + shift)) & 1 == 0 {
            rest
        } else {
            rest ^ (self.f << shift)
        }
    }

    // The remainder of a word modulo f.
    fn remainder(&self, word: u64) -> u64 {
        let mut rest = word;
        for shift in (0..64 - self.n).rev() {
            rest = self.without_term(shift, rest);
        }
        rest
    }

    // Word i of those that are tried. By turns: 2^64 - 1 divided by a number, a power of x from x^63 down, f shifted up, the same beside f
    // shifted up as far as a word allows, and f beside a small number.
    fn word(&self, i: usize) -> u64
        requires { i < 60 }
    {
        let turn = (i / 5) as u64;
        match i % 5 {
            0 => u64::MAX / (turn + 1),
            1 => 1u64 << (63 - turn),
            2 => self.f << turn,
            3 => (self.f << turn) ^ (self.f << (63 - self.n)),
            _ => self.f ^ (turn + 1),
        }
    }

    fn words(&self) -> [u64; WORDS] {
        array::from_fn(|i| self.word(i))
    }

    // Whether a call answers of a word what it answers of the remainder.
    fn is_as_remainder<F: Fn(u64) -> Result<u64, Refusal>>(&self, word: u64, call: F) -> bool
        requires { F.IsAlwaysCallable call }
    {
        agree(call(word), call(self.remainder(word)))
    }

    // Whether the product with another word is the product of the remainders.
    pub(crate) fn product_holds(&self, word: u64, other: u64) -> bool {
        agree(
            field::multiply(self.f, word, other),
            field::multiply(self.f, self.remainder(word), self.remainder(other)),
        )
    }

    pub(crate) fn square_holds(&self, word: u64) -> bool {
        self.is_as_remainder(word, |word| field::square(self.f, word))
    }

    pub(crate) fn trace_holds(&self, word: u64) -> bool {
        self.is_as_remainder(word, |word| field::trace(self.f, word))
    }

    pub(crate) fn coordinates_hold(&self, word: u64) -> bool {
        self.is_as_remainder(word, |word| sheet::to_normal(self.sheet, word))
    }

    // Whether the element that the word's coordinates stand for is the remainder.
    pub(crate) fn return_holds(&self, word: u64) -> bool {
        let element = sheet::to_normal(self.sheet, word).and_then(
            |coordinates| sheet::to_polynomial(self.sheet, coordinates),
        );
        element == Ok(self.remainder(word))
    }

    // Of how many words it holds, each beside another one.
    pub(crate) fn count_words<F: Fn(u64, u64) -> bool>(&self, holds: F) -> usize
        requires { F.IsAlwaysCallable holds }
        ensures { result ≤ 60 }
    {
        let words = self.words();
        words
            .iter()
            .zip(words.iter().rev())
            .filter(|(word, other)| holds(**word, **other))
            .count()
    }

    // At how many places the list of the first words, which is converted as a list, has what the word there has when it is converted alone.
    pub(crate) fn count_list<const LENGTH: usize>(&self) -> usize
        requires { LENGTH ≤ 60 }
        ensures { result ≤ 60 }
    {
        let words = self.words();
        let from = &words[..LENGTH];
        let mut into = [0u64; LENGTH];
        if sheet::list_to_normal(self.sheet, from, &mut into).is_err() {
            return 0;
        }
        from.iter()
            .zip(&into)
            .filter(|(word, listed)| sheet::to_normal(self.sheet, **word) == Ok(**listed))
            .count()
    }
}
