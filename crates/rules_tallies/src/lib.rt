// What is counted of a channel: frames sent and received, sends and frames blocked. Laws over the crate `definition`, in proofs/, in the words of specs/. No code.
#![tactic(auto)]
