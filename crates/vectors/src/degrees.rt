// Words that arrive unreduced (document 02, §6) at every degree 2 to 46. On a sheet the remainder is modulo x^n and what the sheet's bytes 2-7
// add to it, whatever polynomial that is: so each sheet is tried as the builder wrote it, and with other bytes there.
ghost use Rattle.std.specs.Prelude.{ℕ, ◌≤◌};

use super::built::{Built, LARGEST};
use super::remainders::Trial;
use sheet::RECORD;
use std::io;

// For each degree 2 to 46 the smallest polynomial in whose field x is normal.
const FIELDS: [u64; 45] = [
    7,
    13,
    25,
    55,
    97,
    193,
    391,
    769,
    1555,
    3083,
    6157,
    12295,
    24589,
    49153,
    98323,
    196619,
    393251,
    786467,
    1572871,
    3145807,
    6291457,
    12582919,
    25165859,
    50331683,
    100663331,
    201326605,
    402653185,
    805306485,
    1610612737,
    3221225593,
    6442450955,
    12884901957,
    25769803795,
    51539607565,
    103079215183,
    206158430229,
    412316860427,
    824633720863,
    1649267441685,
    3298534883341,
    6597069766705,
    13194139533323,
    26388279066645,
    52776558133303,
    105553116266497,
];

const X: u64 = 2;

// A short list is converted word by word, and a long one by tables.
const SHORT: usize = 40;

const LONG: usize = 60;

// The sheet with the tail in bytes 2-7 of every record.
fn with_tail(tail: u64, mut sheet: [u8; LARGEST]) -> [u8; LARGEST] {
    for record in sheet.chunks_exact_mut(RECORD) {
        record[2..8].copy_from_slice(&tail.to_le_bytes()[..6]);
    }
    sheet
}

// How many words are as they should be on the sheet of x in the field of f, of degree n. The sheet is given the polynomial that is made of f
// and x^n; the builder's own is written over itself.
fn count_degree<P: Fn(u64, u64) -> u64, C: Fn(&Trial<'_>) -> usize>(
    f: u64,
    n: u32,
    polynomial: &P,
    count: &C,
) -> usize
    requires degree { n ≤ 46 }
    requires polynomial { P.IsAlwaysCallable polynomial.now }
    requires count { C.IsAlwaysCallable count.now }
    requires few { (trial : _) (counted : ℕ) → C.post count.now trial counted → counted ≤ 60 }
    ensures { result ≤ 60 }
{
    let top = 1u64 << n;
    let modulus = polynomial(f, top);
    let sheet = with_tail(modulus ^ top, Built::<LARGEST>::new(f, X).bytes);
    let length = n as usize * RECORD;
    count(&Trial::new(&sheet[..length], modulus, n))
}

// At all degrees together.
fn count_degrees<P: Fn(u64, u64) -> u64, C: Fn(&Trial<'_>) -> usize>(
    polynomial: &P,
    count: C,
) -> usize
    requires polynomial { P.IsAlwaysCallable polynomial.now }
    requires count { C.IsAlwaysCallable count }
    requires few { (trial : _) (counted : ℕ) → C.post count trial counted → counted ≤ 60 }
{
    let mut total = 0;
    for (i, f) in FIELDS.iter().enumerate() {
        total += count_degree(*f, i as u32 + 2, polynomial, &count);
    }
    total
}

// What is counted with every polynomial.
fn print_counts<P: Fn(u64, u64) -> u64>(
    rt: &impl Print,
    name: &str,
    polynomial: P,
) -> io::Result<()>
    requires { P.IsAlwaysCallable polynomial }
{
    println!(rt;
        "{name}: product {}, square {}, coordinates {}, return trip {}, lists of {SHORT} {}, lists of {LONG} {}",
        count_degrees(
            &polynomial,
            |trial| trial.count_words(|word, other| trial.product_holds(word, other))
        ),
        count_degrees(
            &polynomial,
            |trial| trial.count_words(|word, _| trial.square_holds(word))
        ),
        count_degrees(
            &polynomial,
            |trial| trial.count_words(|word, _| trial.coordinates_hold(word))
        ),
        count_degrees(
            &polynomial,
            |trial| trial.count_words(|word, _| trial.return_holds(word))
        ),
        count_degrees(&polynomial, |trial| trial.count_list::<SHORT>()),
        count_degrees(&polynomial, |trial| trial.count_list::<LONG>())
    )
}

// 60 words at 45 degrees are 2700, and 40 are 1800. The trace needs a polynomial that is accepted. The others have beside x^n nothing, so
// that x divides them; 1, so that x + 1 does; or all smaller powers of x, where at most degrees something divides them.
pub(crate) fn run(rt: &impl Print) -> io::Result<()> {
    println!(rt; "60 words at each degree 2 to 46: how many are answered as their remainders")?;
    let traces = count_degrees(
        &|f, _| f,
        |trial| trial.count_words(|word, _| trial.trace_holds(word)),
    );
    println!(rt; "modulo f: trace {traces}")?;
    print_counts(rt, "modulo f", |f, _| f)?;
    print_counts(rt, "modulo x^n", |_, top| top)?;
    print_counts(rt, "modulo x^n + 1", |_, top| top ^ 1)?;
    print_counts(
        rt,
        "modulo x^n + .. + 1",
        |_, top| top ^ top.wrapping_sub(1),
    )
}
