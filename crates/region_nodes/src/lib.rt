// What one node brings to the concentration matrix of a region: the Legendre functions in the order of the basis, and the products of the longitude
// factors.
#![tactic(auto)]

pub mod basis;
pub mod longitudes;
