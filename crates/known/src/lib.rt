// The known points that are proved: one statement about the definitions, in specs/ and proofs/.
#![tactic(auto)]
