// Every table of a run is one that its octets give back: its arrays keep their lengths, and slots past N stay as they were. In proofs/, in the words of specs/. No code.
#![tactic(auto)]
