// No code: specs/ and proofs/ prove what every call on the ledger keeps.
#![tactic(auto)]
