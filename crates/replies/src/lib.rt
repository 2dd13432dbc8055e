// What an opening is answered with (RFC 4254 section 5.1): `ChannelOpenConfirmation`, `fail` and `unknown_type` of
// src/parsing.rs of russh; and the fields that an opening and a confirmation share.
#![tactic(auto)]

mod confirmation;
mod failure;
pub mod offer;

pub use failure::{fail, unknown_type};

#[derive(Clone, Copy, Debug, PartialEq, Eq)]
pub struct ChannelOpenConfirmation {
    pub recipient_channel: u32,
    pub sender_channel: u32,
    pub initial_window_size: u32,
    pub maximum_packet_size: u32,
}
