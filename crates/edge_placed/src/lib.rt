// Laws only: what a frame in, a send and a take (specs/Frames.antt) and a credit signal (specs/Credited.antt) leave on octets, and that the work on one slot, put into its row, is that.
#![tactic(auto)]
