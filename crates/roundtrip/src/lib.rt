// No code: specs/ and proofs/ prove that the messages of wire make round trips and that its contracts determine what they answer.
#![tactic(auto)]
