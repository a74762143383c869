// The bias cache: biases of several providers in one lent list, kept apart by the whole key.
//
// `specs/Cache.antt` says what each call answers and leaves; `proofs/Isolation.antt` that no provider sees another's.
#![tactic(auto)]

pub mod cache;
