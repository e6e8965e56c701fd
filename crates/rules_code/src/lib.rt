// Runs of the code: what a call that ends as its contract says leaves, and the rules and demand 3 of the states so left, in proofs/, in the words of specs/. No code.
#![tactic(auto)]
