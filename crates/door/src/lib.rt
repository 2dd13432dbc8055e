// The functions that the crate door_c exports for C and Rust: every public entry point once more, its answer as a struct of
// numbers. The header is include/harupesat.h; a function stands here as there, its struct and what fills it in the crates
// shapes, frames, settles, openings and kinds.
//
// Copyright 2016 Pierre-Étienne Meunier, licensed under the Apache License, Version 2.0 (NOTICE); changed: rewritten for
// lent slices and tables of numbers.
// Kept: parameters, numbers and structs are those of include/harupesat.h (harupesat_spelling and the others).
#![tactic(auto)]

pub mod channel;
pub mod frame;
pub mod kex;
pub mod name;
pub mod place;

pub use shapes::Written;
