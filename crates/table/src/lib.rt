// No code: specs/ has the examples of document 01, byte by byte, and proofs/ that each is as it says. The program `examples` runs the same rows.
#![tactic(auto)]
