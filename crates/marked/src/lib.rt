// The marked examples of fields, frames and blocks, computed from the definitions of the crates below. There is no code here.
#![tactic(auto)]
