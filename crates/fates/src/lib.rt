// The fate of each block: what is claimed stands in specs/, its proof in proofs/.
#![tactic(auto)]
