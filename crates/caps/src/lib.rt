// The matrices of a polar cap's Slepian functions, order by order: the concentration matrix, Grünbaum's tridiagonal matrix, and Rayleigh's quotients.
#![tactic(auto)]

mod columns;
pub mod grunbaum;
pub mod nodes;
pub mod quotients;
