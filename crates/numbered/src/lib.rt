// 0 says that a call of the library has answered: no code, laws about the definitions (proofs/).
#![tactic(auto)]
