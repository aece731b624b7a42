// The library for C: the public calls as entries geopotential_NAME. The head and the verdict of model_file, the report of variance_report and
// the two calls of days have none.
//
// Parameters stand in the order of the Rattle call; a list is a pointer and then its length; a small record goes field by field; an enum
// is its number; numbers that are answered go through pointers at the end and are left alone on a refusal; the result is the
// refusal's number, 0 where the call is done. Calls that can't refuse return their number.
#![tactic(auto)]

pub mod analyses;
pub mod basins;
pub mod fields;
pub mod files;
pub mod free_regions;
pub mod functionals;
pub mod lists;
pub mod matrices;
pub mod models;
pub mod numbers;
pub mod points;
pub mod polar_caps;
pub mod tables;
pub mod tensors;
pub mod version;
