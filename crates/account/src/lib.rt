// Every tick accounted for: what is claimed of the timer's sums stands in specs/, its proof in proofs/. There is no code.

#![tactic(auto)]
