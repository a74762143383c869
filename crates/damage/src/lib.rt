// What damage the checksum excludes, and where a received frame differs from the sent one.
//
// `specs/Damage.antt` and `proofs/BurstLaw.antt` say what cannot slip through; `docs/DAMAGE.md` says it in words.
#![tactic(auto)]

pub mod compare;
