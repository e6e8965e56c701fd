// The rules that hold of every run from a made table, proved over the definition of the calls, in proofs/, in the words of specs/. No code.
#![tactic(auto)]
