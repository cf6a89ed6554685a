// Class leaders (document 01, "Search").
ghost use Rattle.std.specs.Prelude.{◌≡◌, ◌^◌, ◌<◌};
ghost use Rattle.search.specs.Search.{leader};

use elements::Squares;

// Whether no conjugate of a is smaller than a. "The test of a leader stops at the first conjugate that is smaller."
pub fn is_leader(squares: &Squares, a: u64) -> bool
    requires { a < 2 ^ squares.now.n }
    ensures { result ≡ leader squares.now.f squares.now.n a }
{
    let mut y = a;
    'conjugates: {
        for i in 1..squares.n {
            y = squares.square(y);
            if y < a {
                break 'conjugates false;
            }
        }
        true
    }
}
