// What a send writes, and what a job handed over in portions comes to, are the fewest frames that carry the job: proved over the definition, in proofs/, in the words of specs/. No code.
#![tactic(auto)]
