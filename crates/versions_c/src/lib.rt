//! `versions` for C: c/versions.h declares the exports and says what each is for, and docs/C.md has the rules. Each
//! takes texts as bytes, keeps nothing, and returns a status.
#![tactic(auto)]

mod difference;
mod fields;
mod flaw;
mod inexact;
mod keys;
mod kinds;
mod laws;
mod matching;
mod newest;
mod next;
mod numbers;
mod offsets;
mod order;
mod ranges;
mod schemes;
mod set_algebra;
mod sets;
mod sorting;
mod stabilities;
mod status;
mod tags;
mod why;
