// Closing a recording: the calls that hand out what can be salvaged of the bytes held at its end, as definitions and laws;
// and why a byte is given up.
#![tactic(auto)]

pub mod reason;
