// The calls that turn a field into values: on a grid, and averaged over a basin.
ghost use Rattle.std.specs.Prelude.{◌≡◌, Bool, ℕ, ◌+◌, ◌*◌, ◌<◌, min, T, length, get_or};
ghost use Rattle.std.specs.Float.{nan};
ghost use Rattle.std.specs.Float.Ieee.Scale.{finite};
ghost use Rattle.storage.specs.Triangle.{cells};
ghost use Rattle.legendre.specs.Directions.{cosines, sines, legendre_row};
ghost use Rattle.functional.specs.Factor.{factor_of};
ghost use Rattle.rounding.specs.Margins.{AtMostOne, AverageWithin, GridWithin};
ghost use Rattle.synthesis.specs.Grid.{SizesAtMostOne};
ghost use Rattle.geopotential.specs.Functionals.{functional_of};
ghost use Rattle.geopotential.specs.Fields.{basin_number, basin_after, grid_number, grid_after, grid_keeps};

use coefficients::{Head, TideSystem};
use functional::Functional;

// A functional above 5 is refused by 255, before every check.
pub fn geopotential_grid(
    gm: f64,
    radius: f64,
    nmax: usize,
    c: &[f64],
    s: &[f64],
    functional: u32,
    love: &[f64],
    r: f64,
    rows: usize,
    latitudes: &[f64],
    longitudes: usize,
    trig: &[f64],
    work: &mut [f64],
    out: &mut [f64],
) -> u32
    ensures value { result ≡ grid_number functional nmax c.now s.now love.now rows latitudes.now
        longitudes trig.now work.old out.old }
    ensures out_after { out.new ≡ grid_after gm radius r functional nmax c.now s.now love.now rows
        latitudes.now longitudes trig.now work.old out.old }
    ensures work_unchanged { grid_keeps functional nmax c.now s.now love.now rows latitudes.now
        longitudes trig.now work.old out.old work.new
        ≡ grid_keeps functional nmax c.now s.now love.now rows latitudes.now
        longitudes trig.now work.old out.old work.old }
    ensures work_len_unchanged { length work.new ≡ length work.old }
    ensures by_index { (i j : ℕ) → result ≡ 0 → i < rows → j < longitudes → T (finite (get_or out.new (i * longitudes + j) nan))
        → SizesAtMostOne nmax (cells c.now nan) (cells s.now nan)
        (cosines trig.now nmax j) (sines trig.now nmax j)
        → GridWithin (legendre_row latitudes.now i) (factor_of (functional_of functional) love.now gm radius r)
        (cells c.now nan) (cells s.now nan)
        (cosines trig.now nmax j) (sines trig.now nmax j) nmax
        (get_or out.new (i * longitudes + j) nan) }
{
    let Ok(f) = Functional::try_from(functional) else {
        return 255;
    };
    let head = Head {
        gm,
        radius,
        tide_system: TideSystem::Unknown,
        date: None,
        nmax,
    };
    refusal::result_number(synthesis::grid(
        head, c, s, f, love, r, rows, latitudes, longitudes, trig, work, out,
    ))
}

// A functional above 5 is refused by 255, before every check.
pub fn geopotential_basin_average(
    gm: f64,
    radius: f64,
    nmax: usize,
    c: &[f64],
    s: &[f64],
    kmax: usize,
    kc: &[f64],
    ks: &[f64],
    functional: u32,
    love: &[f64],
    r: f64,
    value: &mut f64,
) -> u32
    ensures value { result ≡ basin_number gm radius nmax c.now s.now kmax kc.now ks.now
        functional love.now r }
    ensures value_after { value.new ≡ basin_after gm radius nmax c.now s.now kmax kc.now ks.now
        functional love.now r value.old }
    ensures average_within { result ≡ 0 → T (finite value.new) → AtMostOne (cells kc.now nan 0 0)
        → AverageWithin
        (cells c.now nan) (cells s.now nan) (cells kc.now nan) (cells ks.now nan)
        (factor_of (functional_of functional) love.now gm radius r) (min nmax kmax) value.new }
{
    let Ok(f) = Functional::try_from(functional) else {
        return 255;
    };
    let field = Head {
        gm,
        radius,
        tide_system: TideSystem::Unknown,
        date: None,
        nmax,
    };
    let kernel = Head {
        gm,
        radius,
        tide_system: TideSystem::Unknown,
        date: None,
        nmax: kmax,
    };
    refusal::hand_on(
        slepian::basin_average(field, c, s, kernel, kc, ks, f, love, r),
        value,
    )
}
