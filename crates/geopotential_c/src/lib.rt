// What C calls: each export hands its parameters to the function of the same name in the crate geopotential, and promises what that promises.
#![tactic(auto)]

mod analyses;
mod basins;
mod fields;
mod files;
mod free_regions;
mod functionals;
mod lists;
mod matrices;
mod models;
mod numbers;
mod points;
mod polar_caps;
mod tables;
mod tensors;
mod version;
