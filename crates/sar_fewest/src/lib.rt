// Only theorems: no list of payloads that carries a job has fewer frames than ours. See proofs/; the words are in specs/.
#![tactic(auto)]
