// The demands on the desk, as theorems over the promises of its calls: see specs/ and proofs/.
#![tactic(auto)]
