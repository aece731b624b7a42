// No code. specs/ has document 01's marked values: one table of what is worked out and what it must be, under one theorem.
#![tactic(auto)]
