// Heads that describe a planet (document 02, W8): gm and radius finite and above zero, told from their bit patterns.
#![tactic(auto)]

ghost use Rattle.std.specs.Prelude.{◌≡◌};
ghost use Rattle.planet.specs.Planet.{above_zero, describes_planet};

// Whether a bit pattern is that of a finite number above zero: it lies between those of +0 and of plus infinity.
fn above_zero(p: u64) -> bool
    ensures { result ≡ above_zero p }
{
    if p == 0 {
        return false;
    }
    p < 0x7ff0_0000_0000_0000
}

// Whether gm and radius, given by their bit patterns, are finite and above zero.
pub fn describes_planet(gm: u64, radius: u64) -> bool
    ensures { result ≡ describes_planet gm radius }
{
    if !above_zero(gm) {
        return false;
    }
    above_zero(radius)
}
