// The blocks of a station's queues (document 02 §7 with §1), told once after a whole station call: what is claimed stands in specs/, its proof in proofs/.
#![tactic(auto)]
