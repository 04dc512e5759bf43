//! Requests and replies as bytes: which bytes are one whole request and which of the machine's it is,
//! why others are refused, and the text of a reply.
#![tactic(auto)]

mod answer;
mod body;
mod fields;
mod head;
mod parts;
mod plan;
mod query;
mod query_error;
mod reading;
mod refusal;
mod refusal_body;
mod reply;
mod request;
mod route;
mod target;
mod values;
mod verdict;
mod wanted;
mod whole_requests;
mod words;

pub use answer::{print_answer, print_text};
pub use reading::Reading;
pub use refusal::Refusal;
pub use reply::{Reply, print_refusal};
pub use request::read_request;
pub use wanted::bytes_wanted;
pub use whole_requests::WholeRequests;
