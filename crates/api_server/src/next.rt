//! What the bytes that were read so far come to.
ghost use Rattle.std.specs.Prelude.{◌≤◌};
ghost use Rattle.api_http.specs.Requests.{WaitsUntil};
ghost use Rattle.settings_machine.specs.Asked.{request_of};
ghost use Rattle.settings_machine.specs.Requests.{IsProper};
ghost use Rattle.api_server.specs.Reading.{Comes, IfAsked};

use api_http::{Reading, Refusal, bytes_wanted, read_request};
use settings_machine::Request;
use std::alloc::Global;

// What the bytes come to, with whatever comes after them.
#[derive(Debug, Drop)]
pub(crate) enum Next {
    // They begin with a whole request.
    Asked { request: Request },
    // They are refused.
    Refused { refusal: Refusal },
    // More are wanted: so many in all before they can be anything else.
    Wanted { count: usize },
    // Out of memory.
    Memory,
}

// What the bytes come to, of which so many were wanted before they were to be read again.
pub(crate) fn next_of(alloc: Global, bytes: &[u8], wanted: usize) -> Next
    requires until { WaitsUntil bytes.now wanted }
    requires most { wanted ≤ 1064960 }
    ensures comes { Comes result bytes.now }
    ensures proper { IfAsked result (λ request. IsProper (request_of request)) }
{
    if bytes.len() < wanted {
        return Next::Wanted { count: wanted };
    }
    match read_request(alloc, bytes) {
        Ok(Reading::Whole { request, length: _ }) => Next::Asked { request },
        Ok(Reading::Refused { refusal }) => Next::Refused { refusal },
        Ok(Reading::NotYet) => Next::Wanted {
            count: bytes_wanted(bytes),
        },
        Err(_) => Next::Memory,
    }
}
