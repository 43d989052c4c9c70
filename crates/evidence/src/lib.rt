// No code: specs/ has a day of calls, and proofs/ that it is a run, and what the premises of demand 3 and the answers of 01 keep out.
#![tactic(auto)]
