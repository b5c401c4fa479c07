#![tactic(auto)]

// Mathematics alone: definitions in specs/, theorems in proofs/.
