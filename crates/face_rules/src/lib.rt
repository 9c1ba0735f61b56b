// What the exported functions leave for a caller in C, one call and over a history: definitions and theorems, no function.
#![tactic(auto)]
