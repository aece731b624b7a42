// No code. specs/ has the rounding error of one floating-point operation, how errors add up over sums and products, and the margins of a basin average and of a grid value.
#![tactic(auto)]
