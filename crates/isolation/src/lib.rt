// No link's jobs reach another: demand 3, over the crate `definition`, in proofs/, in the words of specs/. No code.
#![tactic(auto)]
