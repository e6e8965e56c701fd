// A job handed over in portions gives the frames of one send, keeps its credits and ends: proved over the definition, in proofs/, in the words of specs/. No code.
#![tactic(auto)]
