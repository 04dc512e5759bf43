//! The requests of a load run.
ghost use Rattle.std.specs.Prelude.{◌≡◌, ◌≤◌, ◌<◌, ◌++◌, IfOk, OnOk, map};
ghost use Rattle.load_input.specs.Numbers.{below};
ghost use Rattle.load_input.specs.Requests.{body_of, patch_of, commit_of, commit_and_apply_of, apply_request, changes_of, requests_of};

use crate::numbered::push_number;
use itoa::Buffer;
use key_names::Bytes;
use std::alloc::{AllocError, Global};

// How many transactions there are.
const TRANSACTIONS: u32 = 7;

// The body that sets a setting.
#[tactic(auto, unfolding(crate::specs::Requests::body_of))]
fn body_of(alloc: Global, i: u32) -> Result<Vec<u8>, AllocError>
    requires { i < 10000 }
    ensures { IfOk result (λ body. body.items ≡ body_of i) }
{
    let mut body = Vec::from_slice(alloc, b"{\"load\":{\"k")?;
    push_number(&mut body, i)?;
    body.extend_from_slice(b"\":")?;
    push_number(&mut body, 7919 * i % 1000000)?;
    body.extend_from_slice(b"}}")?;
    Ok(body)
}

// The request that changes a setting.
#[tactic(auto, unfolding(crate::specs::Requests::patch_of))]
fn patch_of(alloc: Global, i: u32) -> Result<Bytes, AllocError>
    requires { i < 10000 }
    ensures { IfOk result (λ bytes. bytes ≡ patch_of i) }
{
    let body = body_of(alloc, i)?;
    let mut buffer = Buffer::new();
    let mut bytes = Vec::from_slice(alloc, b"PATCH /settings?tx=t")?;
    push_number(&mut bytes, i % TRANSACTIONS)?;
    bytes.extend_from_slice(b" HTTP/1.1\r\nContent-Length: ")?;
    bytes.extend_from_slice(buffer.format(body.len()).as_bytes())?;
    bytes.extend_from_slice(b"\r\n\r\n")?;
    bytes.extend_from_slice(body.as_slice())?;
    Ok(Bytes::of(bytes))
}

// The request that commits a transaction.
#[tactic(auto, unfolding(crate::specs::Requests::commit_of))]
fn commit_of(alloc: Global, tx: u32) -> Result<Bytes, AllocError>
    ensures { IfOk result (λ bytes. bytes ≡ commit_of tx) }
{
    let text = format!(in alloc; "POST /tx/commit?tx=t{tx} HTTP/1.1\r\n\r\n")?;
    Ok(Bytes::of(text.into_bytes()))
}

// The request that commits a transaction and applies what is owed.
#[tactic(auto, unfolding(crate::specs::Requests::commit_and_apply_of))]
fn commit_and_apply_of(alloc: Global, tx: u32) -> Result<Bytes, AllocError>
    ensures { IfOk result (λ bytes. bytes ≡ commit_and_apply_of tx) }
{
    let text = format!(in alloc; "POST /tx/commit_and_apply?tx=t{tx} HTTP/1.1\r\n\r\n")?;
    Ok(Bytes::of(text.into_bytes()))
}

// The request that applies what is owed.
#[tactic(auto, unfolding(crate::specs::Requests::apply_request))]
fn apply_request(alloc: Global) -> Result<Bytes, AllocError>
    ensures { IfOk result (λ bytes. bytes ≡ apply_request) }
{
    let text = Vec::from_slice(alloc, b"POST /tx/apply HTTP/1.1\r\n\r\n")?;
    Ok(Bytes::of(text))
}

// Adds the change of a setting, and after each hundredth the commit of its transaction.
#[tactic(auto, unfolding(crate::specs::Requests::changes_of))]
fn push_changes(out: &mut Vec<Bytes>, i: u32) -> Result<(), AllocError>
    requires { i < 10000 }
    ensures { OnOk result (out.new.items ≡ out.old.items ++ changes_of i) }
{
    let alloc = *out.allocator();
    out.push(patch_of(alloc, i)?)?;
    if i % 100 == 99 {
        out.push(commit_and_apply_of(alloc, i % TRANSACTIONS)?)?;
    }
    Ok(())
}

// Adds the commits of all transactions.
fn push_commits(out: &mut Vec<Bytes>) -> Result<(), AllocError>
    ensures { OnOk result (out.new.items ≡ out.old.items ++ map commit_of (below 7)) }
{
    let alloc = *out.allocator();
    for tx in 0..TRANSACTIONS {
        out.push(commit_of(alloc, tx)?)?;
    }
    Ok(())
}

/// The bytes of the requests for so many settings, in their order.
///
/// Each setting is changed once, in the transactions `t0` to `t6` in turn; after each hundredth its transaction is committed and
/// what is owed is applied. At the end each transaction is committed, and what is owed is applied. The only error is out of
/// memory. It takes time and memory in proportion to the count.
pub fn requests(alloc: Global, count: u32) -> Result<Vec<Bytes>, AllocError>
    requires some { 1 ≤ count }
    requires most { count ≤ 10000 }
    ensures { IfOk result (λ requests. requests.items ≡ requests_of count) }
{
    let mut requests = Vec::new(alloc);
    for i in 0..count {
        push_changes(&mut requests, i)?;
    }
    push_commits(&mut requests)?;
    requests.push(apply_request(alloc)?)?;
    Ok(requests)
}
