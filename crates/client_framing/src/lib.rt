//! Where the request of a client ends, for a door that watches many clients and hands on those that can be heard.
#![tactic(auto)]

/// What is wanted of a client, by the bytes that it has sent so far, before it is heard.
#[derive(Clone, Copy, Debug, PartialEq, Eq)]
pub enum Wanted {
    /// More: with fewer bytes than so many in all, these can't be enough.
    More(usize),
    /// Nothing, as all of its request is there. What it sends from now on is no part of it.
    Whole,
    /// Nothing, as it is answered before all of its request is there, or before it is known where that ends. It may still send the rest.
    Early,
}

/// Says what is wanted of a client before it is heard.
pub trait Framing {
    /// What is wanted where these bytes are there.
    fn wanted(&self, bytes: &[u8]) -> Wanted;
}
