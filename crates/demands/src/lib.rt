// Only theorems: what the sender, the receiver and the locks promise together. See specs/ and proofs/.
#![tactic(auto)]
