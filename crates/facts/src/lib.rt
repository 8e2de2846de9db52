// Facts that the proofs of several crates cite, each once: no code (proofs/).
#![tactic(auto)]
