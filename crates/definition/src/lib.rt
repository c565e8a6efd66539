// What each call means stands in specs/, and the theorems that need no code in proofs/.
#![tactic(auto)]
