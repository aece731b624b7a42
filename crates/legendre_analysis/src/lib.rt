// The sums over the rows of a grid: what each row's sums over its longitudes add to the coefficients, and the division of all by the factors.
#![tactic(auto)]

pub mod degrees;
pub mod division;
