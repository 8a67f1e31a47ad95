//! Laws of levels, of places and of rewriting: what holds of them beyond what each call promises. Worked cases of the definitions are in
//! `proofs/`.
#![tactic(auto, using(crate::proofs::KnownLaws::known_laws))]

pub mod laws;
pub mod rule_laws;
