// The potential and its derivatives at one point, and what a point on the rotating body senses of them.
#![tactic(auto)]

ghost use Rattle.std.specs.Prelude.{◌≡◌};
ghost use Rattle.local.specs.Local.{acceleration_of, gravity_of};
ghost use Rattle.local.specs.Second.{tensor_of};
ghost use Rattle.refusal.specs.Numbers.{result_number};

use legendre::Latitude;
use refusal::Refusal;

// The gravitational potential and its first partial derivatives at one point.
#[derive(Clone, Copy)]
pub struct Partials {
    // V, m²/s²
    pub v: f64,
    // ∂V/∂r, m/s²
    pub dr: f64,
    // ∂V/∂φ by geocentric latitude, m²/s² per radian
    pub dlat: f64,
    // ∂V/∂λ, m²/s² per radian
    pub dlon: f64,
}

// The potential with its first and second partial derivatives at one point: what a gravity-gradient tensor is made of.
#[derive(Clone, Copy)]
pub struct SecondPartials {
    // V, ∂V/∂r, ∂V/∂φ, ∂V/∂λ
    pub first: Partials,
    // ∂²V/∂r²
    pub drr: f64,
    // ∂²V/∂φ²
    pub dlatlat: f64,
    // ∂²V/∂λ²
    pub dlonlon: f64,
    // ∂²V/∂r∂φ
    pub drlat: f64,
    // ∂²V/∂r∂λ
    pub drlon: f64,
    // ∂²V/∂φ∂λ
    pub dlatlon: f64,
}

impl Partials {
    // The gravitational acceleration in local components (north, east, up), m/s². At a pole, where east has no direction, u is 0 and so is a divisor.
    pub fn acceleration_neu(self, r: f64, latitude: Latitude) -> [f64; 3]
        ensures { result ≡ acceleration_of self r latitude.u }
    {
        [self.dlat / r, self.dlon / (r * latitude.u), self.dr]
    }

    // Gravity: the acceleration and the centrifugal term of a body that rotates at omega (rad/s), directed away from the axis.
    pub fn gravity_neu(self, r: f64, latitude: Latitude, omega: f64) -> [f64; 3]
        ensures { result ≡ gravity_of self r latitude.t latitude.u omega }
    {
        let w2r = omega * omega * r;
        let north = w2r * latitude.u * latitude.t;
        let up = w2r * latitude.u * latitude.u;
        let g = self.acceleration_neu(r, latitude);
        [g[0] - north, g[1], g[2] + up]
    }
}

impl SecondPartials {
    // The gravity-gradient tensor in the local frame (north, east, up), s⁻²: the second derivatives of V along its axes, row by row. In Eötvös it
    // is 1e9 times that. At a pole, where east has no direction, u is 0 and so is a divisor.
    pub fn tensor_neu(self, r: f64, latitude: Latitude) -> [[f64; 3]; 3]
        ensures { result ≡ tensor_of self r latitude.t latitude.u }
    {
        let sec = 1.0 / latitude.u;
        let tan = latitude.t / latitude.u;
        let vr = self.first.dr;
        let vlat = self.first.dlat;
        let vlon = self.first.dlon;
        let nn = vr / r + self.dlatlat / (r * r);
        let ee = vr / r - tan * vlat / (r * r) + self.dlonlon * sec * sec / (r * r);
        let nu = (self.drlat - vlat / r) / r;
        let eu = (self.drlon - vlon / r) * sec / r;
        let ne = (self.dlatlon + tan * vlon) * sec / (r * r);
        [[nn, ne, nu], [ne, ee, eu], [nu, eu, self.drr]]
    }
}
