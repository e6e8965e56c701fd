// Laws only: a call on a table's octets where they stand. proofs/Parts.antt: a row written in part. proofs/Row.antt: a table's octets with one row written are the spelling of the table with that slot put.
// proofs/Gate.antt: the first refusals, and what stays, told from the octets. They rest on `edge_layout`, on what `edge_layout_write` writes and `edge_scan` tests, and on `edge`.
#![tactic(auto)]
