// The words of the command line. Word 0 is the program's name. A word is bytes: nothing says that it is UTF-8.
ghost use Rattle.std.specs.Prelude.{◌≤◌, length};

use std::env::FillError;
use std::rt::Env;

// Whether there is a word i.
fn is_given<E: Env>(env: &E, i: usize) -> bool {
    let mut space = [0u8; 1];
    !matches!(env.arg(i, &mut space), Err(FillError::NotPresent))
}

// How many words the command line has.
pub fn word_count<E: Env>(env: &E) -> usize {
    (0..usize::MAX)
        .find(|i| !is_given(env, *i))
        .unwrap_or(usize::MAX)
}

// Puts word i into the space, and returns it. A word that is not there has no bytes, and so has one that is too long.
pub fn word_at<'s, E: Env>(env: &E, i: usize, space: &'s mut [u8]) -> &'s [u8]
    ensures { length result.now ≤ length space.old }
{
    let size = env.arg(i, space).unwrap_or(0);
    &space[..size]
}
