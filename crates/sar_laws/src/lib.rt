// Only theorems: that a job cut into frames is joined to the same job again, and what a join step leaves in a slot's part of the room. See specs/.
#![tactic(auto)]
