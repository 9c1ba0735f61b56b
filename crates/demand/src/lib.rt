// Demand 3 and the bench table: definitions and theorems, no function.
#![tactic(auto)]
