// Only theorems on signals, over the definitions of `signal_headers`, `signal_bodies` and `signal_write`: see specs/.
#![tactic(auto)]
