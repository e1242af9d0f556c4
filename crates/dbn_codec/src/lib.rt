//! The body of a record as bytes, in both forms, and bytes as a body again.
#![tactic(auto)]

mod decoding;
mod encoding;
mod laws;
mod unread;

pub use decoding::{decode, decode_group};
pub use encoding::{MAX_MEMBERS, encode, encode_group};
pub use laws::{
    bodies_are_read_again, other_members_have_other_bodies, what_is_read_has_that_body,
};

#[cfg(test)]
mod tests;
