// When the clock is only known within limits (document 02 §13): what is claimed stands in specs/, its proof in proofs/.
#![tactic(auto)]
