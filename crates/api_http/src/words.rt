//! The single words that a query gives: a check, a name, a transaction, or that all is meant.
ghost use Rattle.std.specs.Prelude.{◌≡◌, [], ◌∷◌, codes, IfOk, IfErr, IsTrue};
ghost use Rattle.settings_maps.specs.TxName.{is_meta_name};
ghost use Rattle.api_http.specs.Query.{texts, QueryFault, IsBadPair};
ghost use Rattle.api_http.specs.Spelled.{MayNameTx, NamesGuard, GivesName, MayGiveAll};
ghost use Rattle.api_http.specs.declared.query_error.QueryError.TheVariants.{Bad};

use crate::query_error::QueryError;
use crate::values::{given_tx, only_pair};
use key_names::Text;
use settings_machine::Guard;
use settings_maps::{TxName, is_meta_name};
use std::alloc::Global;

/// The transaction that the query names, if any.
pub(crate) fn tx_if_any(
    alloc: Global,
    pairs: &[(String, String)],
) -> Result<Option<TxName>, QueryError>
    ensures ok { IfOk result (MayNameTx (texts pairs.now)) }
    ensures bad { IfErr result (λ e. e ≡ Bad → QueryFault (codes "tx" ∷ []) [] (texts pairs.now)) }
{
    match only_pair(pairs) {
        Ok(None) => Ok(None),
        Ok(Some((name, value))) => match given_tx(alloc, name, value) {
            Ok(tx) => Ok(Some(tx)),
            Err(error) => Err(error),
        },
        Err(error) => Err(error),
    }
}

fn given_check(name: &str, value: &str) -> Result<(), QueryError>
    ensures ok { IfOk result (λ _. (name.now ≡ codes "check") × (value.now ≡ codes "render")) }
    ensures bad { IfErr result (λ _. IsBadPair (codes "check" ∷ []) name.now value.now) }
{
    if name != "check" {
        return Err(QueryError::Bad);
    }
    if value != "render" {
        return Err(QueryError::Bad);
    }
    Ok(())
}

/// What the query has a change refused for.
pub(crate) fn guard_of(pairs: &[(String, String)]) -> Result<Guard, QueryError>
    ensures ok { IfOk result (NamesGuard (texts pairs.now)) }
    ensures bad { IfErr result (λ _. QueryFault (codes "check" ∷ []) [] (texts pairs.now)) }
{
    match only_pair(pairs) {
        Ok(None) => Ok(Guard::Off),
        Ok(Some((name, value))) => match given_check(name, value) {
            Ok(()) => Ok(Guard::Render),
            Err(error) => Err(error),
        },
        Err(error) => Err(error),
    }
}

fn given_all(name: &str, value: &str) -> Result<(), QueryError>
    ensures ok { IfOk result (λ _. (name.now ≡ codes "all") × (value.now ≡ [])) }
    ensures bad { IfErr result (λ _. IsBadPair (codes "all" ∷ []) name.now value.now) }
{
    if name != "all" {
        return Err(QueryError::Bad);
    }
    if value != "" {
        return Err(QueryError::Bad);
    }
    Ok(())
}

/// Whether the query means all.
pub(crate) fn has_all(pairs: &[(String, String)]) -> Result<bool, QueryError>
    ensures ok { IfOk result (MayGiveAll (texts pairs.now)) }
    ensures bad { IfErr result (λ _. QueryFault (codes "all" ∷ []) [] (texts pairs.now)) }
{
    match only_pair(pairs) {
        Ok(None) => Ok(false),
        Ok(Some((name, value))) => match given_all(name, value) {
            Ok(()) => Ok(true),
            Err(error) => Err(error),
        },
        Err(error) => Err(error),
    }
}

fn given_name(alloc: Global, name: &str, value: &str) -> Result<Text, QueryError>
    ensures ok { IfOk result
        (λ text. (name.now ≡ codes "name") × (text ≡ value.now) × IsTrue (is_meta_name value.now)) }
    ensures bad { IfErr result (λ e. e ≡ Bad → IsBadPair (codes "name" ∷ []) name.now value.now) }
{
    if name != "name" {
        return Err(QueryError::Bad);
    }
    if !is_meta_name(value.as_bytes()) {
        return Err(QueryError::Bad);
    }
    Ok(Text::from_str(alloc, value)?)
}

/// The name that the query gives.
pub(crate) fn name_of(alloc: Global, pairs: &[(String, String)]) -> Result<Text, QueryError>
    ensures ok { IfOk result (GivesName (texts pairs.now)) }
    ensures bad { IfErr result
        (λ e. e ≡ Bad → QueryFault (codes "name" ∷ []) (codes "name" ∷ []) (texts pairs.now)) }
{
    match only_pair(pairs) {
        Ok(None) => Err(QueryError::Bad),
        Ok(Some((name, value))) => given_name(alloc, name, value),
        Err(error) => Err(error),
    }
}
