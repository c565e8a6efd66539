// What a call does to the bytes held (document 02 §3): what is claimed stands in specs/, its proof in proofs/.
#![tactic(auto)]
