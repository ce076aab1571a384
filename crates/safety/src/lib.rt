// Demand 3: no code of its own. What is proved of every run stands in specs/, its proof in proofs/.
#![tactic(auto)]
