// Bytes as text: compared, their highest byte, the first of them, and UTF-8 (RFC 3629).
#![tactic(auto)]

mod compare;
mod octets;

pub use compare::{front, highest, same};
pub use octets::utf8;
