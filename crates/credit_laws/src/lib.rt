// What holds of the credit account through frames and grants, proved over the definitions of the crate `credit`, in specs/. No code.
#![tactic(auto)]
