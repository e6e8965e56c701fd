// Which slots a call changes, what its answer hangs on, and whom the attention set names: laws over the crate `definition`, in proofs/, in the words of specs/. No code.
#![tactic(auto)]
