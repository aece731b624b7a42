// No code. specs/ has the margin of an average over a drawn basin, whose kernel `basin_kernel` hands back.
#![tactic(auto)]
