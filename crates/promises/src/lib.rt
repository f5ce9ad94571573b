// The promises of the tender, as theorems over every crate below: proofs/.
#![tactic(auto)]
