// No functions: the laws of `text_lines` (specs/), which say that the lines of an input do not depend on the pieces in which it is read.
#![tactic(auto)]
