// Only definitions and laws on lists, choices and loops: see specs/.
#![tactic(auto)]
