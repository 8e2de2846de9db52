// What the library hands out is what it takes in again: no code, laws about the definitions (proofs/Runs.antt, Vehicles.antt).
#![tactic(auto)]
