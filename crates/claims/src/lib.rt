// No code: what is promised, as statements in specs/ that proofs/ proves. Demand1.antt and Demand3.antt come first.
#![tactic(auto)]
