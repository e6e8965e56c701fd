// Runs of the entries, over octets: they are the definition's runs, spelled; and demand 3 of them. In proofs/, in the words of specs/. No code.
#![tactic(auto)]
