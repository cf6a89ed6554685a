// Source document 001, table 5: generators of normal bases of the least complexity, a line for each degree 40 to 46. "Each number i in the
// set in the second column represents the term x^i appearing in the minimal polynomial of the basis": in the field of that polynomial x is
// such a generator.
use super::answers::{Shown, TableRow};
use super::built::{Built, LARGEST};
use std::io;

const ROW_40: u64 = 1 << 40
    | 1 << 39
    | 1 << 37
    | 1 << 34
    | 1 << 31
    | 1 << 26
    | 1 << 24
    | 1 << 23
    | 1 << 21
    | 1 << 19
    | 1 << 18
    | 1 << 16
    | 1 << 9
    | 1 << 5
    | 1;

const ROW_41: u64 = 1 << 41
    | 1 << 40
    | 1 << 38
    | 1 << 37
    | 1 << 36
    | 1 << 33
    | 1 << 32
    | 1 << 22
    | 1 << 21
    | 1 << 20
    | 1 << 17
    | 1 << 16
    | 1 << 9
    | 1 << 8
    | 1 << 6
    | 1 << 5
    | 1 << 4
    | 1 << 1
    | 1;

const ROW_42: u64 = 1 << 42
    | 1 << 41
    | 1 << 40
    | 1 << 38
    | 1 << 36
    | 1 << 35
    | 1 << 31
    | 1 << 30
    | 1 << 26
    | 1 << 23
    | 1 << 22
    | 1 << 20
    | 1 << 19
    | 1 << 18
    | 1 << 15
    | 1 << 12
    | 1 << 3
    | 1 << 2
    | 1;

const ROW_43: u64 = 1 << 43
    | 1 << 42
    | 1 << 40
    | 1 << 37
    | 1 << 35
    | 1 << 33
    | 1 << 31
    | 1 << 30
    | 1 << 29
    | 1 << 28
    | 1 << 27
    | 1 << 25
    | 1 << 24
    | 1 << 22
    | 1 << 20
    | 1 << 18
    | 1 << 14
    | 1 << 12
    | 1 << 11
    | 1 << 9
    | 1 << 8
    | 1 << 7
    | 1 << 5
    | 1 << 3
    | 1;

const ROW_44: u64 = 1 << 44
    | 1 << 43
    | 1 << 42
    | 1 << 40
    | 1 << 35
    | 1 << 33
    | 1 << 30
    | 1 << 28
    | 1 << 27
    | 1 << 26
    | 1 << 25
    | 1 << 24
    | 1 << 23
    | 1 << 21
    | 1 << 19
    | 1 << 18
    | 1 << 17
    | 1 << 12
    | 1 << 11
    | 1 << 10
    | 1 << 9
    | 1 << 5
    | 1 << 3
    | 1 << 2
    | 1;

const ROW_45: u64 = 1 << 45
    | 1 << 44
    | 1 << 42
    | 1 << 41
    | 1 << 40
    | 1 << 39
    | 1 << 38
    | 1 << 37
    | 1 << 33
    | 1 << 30
    | 1 << 23
    | 1 << 20
    | 1 << 18
    | 1 << 16
    | 1 << 14
    | 1 << 13
    | 1 << 12
    | 1 << 11
    | 1 << 9
    | 1 << 6
    | 1 << 2
    | 1 << 1
    | 1;

const ROW_46: u64 = 1 << 46
    | 1 << 45
    | 1 << 44
    | 1 << 42
    | 1 << 40
    | 1 << 39
    | 1 << 36
    | 1 << 32
    | 1 << 29
    | 1 << 28
    | 1 << 26
    | 1 << 23
    | 1 << 20
    | 1 << 15
    | 1 << 13
    | 1 << 10
    | 1 << 7
    | 1 << 4
    | 1;

const ROWS: [u64; 7] = [ROW_40, ROW_41, ROW_42, ROW_43, ROW_44, ROW_45, ROW_46];

const X: u64 = 2;

// The basis of x in the field of f.
fn print_generator(rt: &impl Print, f: u64) -> io::Result<()> {
    let basis = Built::<LARGEST>::new(f, X).answer;
    let row = basis.map(|basis| TableRow(basis.degree, u64::from(basis.complexity)));
    println!(rt; "{}", Shown(row))
}

pub(crate) fn run(rt: &impl Print) -> io::Result<()> {
    println!(rt; "generators of table 5, source document 001: degree, complexity")?;
    for f in &ROWS {
        print_generator(rt, *f)?;
    }
    Ok(())
}
