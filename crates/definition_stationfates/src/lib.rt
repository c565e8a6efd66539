// The account of a queue on a station (document 02 §7 with §1), and where the dead letters of a call went: what is claimed stands in specs/, its proof in proofs/.
#![tactic(auto)]
