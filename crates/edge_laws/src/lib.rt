// Only theorems on the entries: on octets that spell no table each returns 1 and leaves table, room and buffers alone. See specs/. No code.
#![tactic(auto)]
