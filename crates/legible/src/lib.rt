// No code: specs/ says how what is printed can be read, and proofs/ proves it.
#![tactic(auto)]
