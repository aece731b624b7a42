// Latitudes out of lent lists.
ghost use Rattle.std.specs.Prelude.{◌≡◌, ℕ, ◌+◌, ◌<◌, length};
ghost use Rattle.legendre.specs.Directions.{row_sine, row_cosine};

use crate::Latitude;

// The latitude of row i.
pub fn latitude_of(i: usize, latitudes: &[f64]) -> Latitude
    requires { i + i + 1 < length latitudes.now }
    ensures fact_1 { result.t ≡ row_sine latitudes.now i }
    ensures fact_2 { result.u ≡ row_cosine latitudes.now i }
{
    let at = i + i;
    Latitude {
        t: latitudes[at],
        u: latitudes[at + 1],
    }
}
