// The exports for C, behind include/harupesat.h: each calls the function of the crate door that has its name, and says what
// that one says. A library exports nothing, and no crate can stand on a static library: so the two are apart.
// Kept: parameters, numbers and structs are those of include/harupesat.h (harupesat_spelling and the others).
#![tactic(auto)]

pub mod channel;
pub mod frame;
pub mod kex;
pub mod name;
pub mod place;
