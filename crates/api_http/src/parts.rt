//! The pairs of a query, apart by a name.
ghost use Rattle.std.specs.Prelude.{◌≡◌, IfOk};
ghost use Rattle.api_http.specs.Query.{texts, named, others};

use std::alloc::{AllocError, Global};

/// The pairs of a query.
#[derive(Debug, Drop)]
pub(crate) struct Parts {
    /// Those with a name, in their order.
    pub named: Vec<(String, String)>,
    /// The others, in their order.
    pub others: Vec<(String, String)>,
}

/// Copies of the pairs with this name, and of the others.
pub(crate) fn parts_of(
    alloc: Global,
    pairs: &[(String, String)],
    name: &str,
) -> Result<Parts, AllocError>
    ensures named { IfOk result (λ parts. texts parts.named.items ≡ named name.now (texts pairs.now)) }
    ensures others { IfOk result (λ parts. texts parts.others.items ≡ others name.now (texts pairs.now)) }
{
    let mut parts = Parts {
        named: Vec::new(alloc),
        others: Vec::new(alloc),
    };
    for (pair_name, value) in pairs {
        let pair = (pair_name.clone()?, value.clone()?);
        if pair_name.as_str() == name {
            parts.named.push(pair)?;
        } else {
            parts.others.push(pair)?;
        }
    }
    Ok(parts)
}
