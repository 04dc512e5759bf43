//! What is wanted of a client before its request is heard, for a door that watches many clients.
ghost use Rattle.std.specs.Prelude.{◌≡◌, ◌≢◌, ℕ, IfOk};
ghost use Rattle.api_http.specs.Heads.{IsHopeless};
ghost use Rattle.api_http.specs.Requests.{Asks, HoldsMessage, Waits, WaitsUntil};
ghost use Rattle.settings_machine.specs.Requests as machine;

use crate::wanted::holds_message;
use crate::{Reading, bytes_wanted, read_request};
use client_framing::{Framing, Wanted};
use std::alloc::{AllocError, Global};

/// A client is heard once its request is whole or refused, also where it is refused before its body, or where memory is out for what is asked. Its request
/// is whole once all bytes are there that its head speaks of, whether or not it is refused.
#[derive(Clone, Copy, Debug, Drop)]
pub struct WholeRequests {
    alloc: Global,
}

impl WholeRequests {
    /// With memory for what is asked.
    pub fn new(alloc: Global) -> WholeRequests {
        WholeRequests { alloc }
    }
}

// So many bytes, where these are read as the front of a request; else they are answered early.
fn wanted_by(reading: &Reading, count: usize) -> Wanted
    ensures not_yet { (n : ℕ) → result ≡ Wanted.More n → reading.now ≡ Reading.NotYet }
    ensures same { (n : ℕ) → result ≡ Wanted.More n → n ≡ count }
    ensures none { reading.now ≡ Reading.NotYet → result ≡ Wanted.More count }
    ensures early { result ≢ Wanted.Whole }
{
    match reading {
        Reading::NotYet => Wanted::More(count),
        _ => Wanted::Early,
    }
}

/// What is wanted where these bytes are there: more until they are a request or refused, so that no client is held back whose bytes could be answered and,
/// but for a hopeless head, none is heard early. They are whole exactly where they begin with a whole message, asked or refused; so each request that
/// `read_request` reads is whole. What is asked is read only where part of its body is missing, so no body is read. The only error is out of memory.
pub(crate) fn wanted_of(alloc: Global, bytes: &[u8]) -> Result<Wanted, AllocError>
    ensures waits { IfOk result (λ wanted. (n : ℕ) → wanted ≡ Wanted.More n → Waits bytes.now) }
    ensures until { IfOk result (λ wanted. (n : ℕ) → wanted ≡ Wanted.More n → WaitsUntil bytes.now n) }
    ensures heard { IfOk result (λ wanted. ¬ IsHopeless bytes.now → Waits bytes.now → (n : ℕ) × (wanted ≡ Wanted.More n)) }
    ensures whole { IfOk result (λ wanted. wanted ≡ Wanted.Whole → HoldsMessage bytes.now) }
    ensures every_whole { IfOk result (λ wanted. HoldsMessage bytes.now → wanted ≡ Wanted.Whole) }

    // So each request that is read is whole.
    ensures asked { IfOk result (λ wanted. (q : machine.Request) (n : ℕ) → Asks bytes.now q n → wanted ≡ Wanted.Whole) }
{
    if holds_message(bytes) {
        return Ok(Wanted::Whole);
    }
    let count = bytes_wanted(bytes);
    if count <= bytes.len() {
        return Ok(Wanted::Early);
    }
    let reading = read_request(alloc, bytes)?;
    Ok(wanted_by(&reading, count))
}

impl Framing for WholeRequests {
    fn wanted(&self, bytes: &[u8]) -> Wanted {
        wanted_of(self.alloc, bytes).unwrap_or(Wanted::Early)
    }
}
