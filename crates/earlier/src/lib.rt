// What stays as it was under document 02: what is claimed stands in specs/, its proof in proofs/.
#![tactic(auto)]
