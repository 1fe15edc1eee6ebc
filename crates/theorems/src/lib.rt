// What the user demands, as theorems. The statements stand in specs, a file for each demand, and can be judged without the proofs.
#![tactic(auto)]
