// Exact rejoining at the table: the job that is taken is the job that was sent, proved over the rules of every run, in proofs/, in the words of specs/. No code.
#![tactic(auto)]
