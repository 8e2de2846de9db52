// The line that is shown of a record says that record again: no code, one law about the definitions (proofs/Retold.antt).
#![tactic(auto)]
