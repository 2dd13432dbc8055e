// The field reader (RFC 4251 section 5): a cursor that is a value, and what it reads of a slice that is lent.
#![tactic(auto)]

pub mod cursor;
pub mod place;

pub use cursor::Cursor;
pub use place::Place;
