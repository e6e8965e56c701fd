// What every call does, in specs/: the page that a reader must believe. No code.
#![tactic(auto)]
