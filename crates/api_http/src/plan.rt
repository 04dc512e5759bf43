//! Which request it is by its head alone.
ghost use Rattle.std.specs.Prelude.{◌≡◌, [], ◌∷◌, ℕ, List, IfOk, IfErr, IsTrue, codes};
ghost use Rattle.api_http.specs.Query.{texts, named, others, Pair, QueryFault, HasQueryFault};
ghost use Rattle.settings_machine.specs.Asked.{request_of};
ghost use Rattle.api_http.specs.Spelled.{NamesTx, NamesGuard, MayGiveAll, GivesName, Spells};
ghost use Rattle.api_http.specs.Plans.{IsPlan, is_bare, takes_tx, takes_check};
ghost use Rattle.api_http.specs.declared.query_error.QueryError.TheVariants.{Bad};

use crate::parts::parts_of;
use crate::query_error::QueryError;
use crate::route::Route;
use crate::values::{keys_of, keys_or_prefix_of, names_of, nothing, tx_of};
use crate::words::{guard_of, has_all, name_of, tx_if_any};
use key_names::Text;
use settings_machine::{Guard, Request};
use settings_maps::TxName;
use std::alloc::Global;

/// What the head tells of a request.
#[derive(Debug, Drop)]
pub(crate) enum Plan {
    /// It is this one, whatever its body is.
    Ready(Request),
    /// It patches the transaction by the pairs of its body.
    Patch(TxName),
    /// It makes the pairs of its body live at once, refused so.
    Set(Guard),
}

// The request of a route that takes no query.
fn bare_request(route: Route) -> Request
    requires { IsTrue (is_bare route) }
    ensures { (pairs : List Pair) (body : List ℕ) → pairs ≡ []
        → Spells pairs body route (request_of result) }
{
    match route {
        Route::Root => Request::Root,
        Route::OsNames => Request::OsNames,
        Route::TxList => Request::TxList,
        Route::JobNow => Request::JobNow,
        Route::Store => Request::Store,
        _ => Request::Verify,
    }
}

// The request of a route that takes the name of a transaction and no body.
fn tx_request(route: Route, tx: TxName) -> Request
    requires { IsTrue (takes_tx route) }
    ensures { (pairs : List Pair) (body : List ℕ) → NamesTx pairs tx
        → Spells pairs body route (request_of result) }
{
    match route {
        Route::Pending => Request::Pends { tx },
        _ => Request::DropTx { tx },
    }
}

// The request of a route that commits a transaction.
fn commit_request(route: Route, tx: TxName, guard: Guard) -> Request
    requires { IsTrue (takes_check route) }
    ensures { (pairs : List Pair) (body : List ℕ) → NamesTx (others (codes "check") pairs) tx
        → NamesGuard (named (codes "check") pairs) guard → Spells pairs body route (request_of result) }
{
    match route {
        Route::Commit => Request::Commit { tx, guard },
        _ => Request::CommitAndApply { tx, guard },
    }
}

fn bare_plan(route: Route, pairs: &[(String, String)]) -> Result<Plan, QueryError>
    requires { IsTrue (is_bare route) }
    ensures ok { IfOk result (IsPlan route (texts pairs.now)) }
    ensures bad { IfErr result (λ e. e ≡ Bad → HasQueryFault route (texts pairs.now)) }
{
    match nothing(pairs) {
        Ok(()) => Ok(Plan::Ready(bare_request(route))),
        Err(error) => Err(error),
    }
}

fn tx_plan(alloc: Global, route: Route, pairs: &[(String, String)]) -> Result<Plan, QueryError>
    requires { IsTrue (takes_tx route) }
    ensures ok { IfOk result (IsPlan route (texts pairs.now)) }
    ensures bad { IfErr result (λ e. e ≡ Bad → HasQueryFault route (texts pairs.now)) }
{
    match tx_of(alloc, pairs) {
        Ok(tx) => Ok(Plan::Ready(tx_request(route, tx))),
        Err(error) => Err(error),
    }
}

// With this check, and the transaction that the rest of the query names.
fn checked_plan(
    alloc: Global,
    route: Route,
    guard: Guard,
    rest: &[(String, String)],
) -> Result<Plan, QueryError>
    requires { IsTrue (takes_check route) }
    ensures ok { IfOk result (λ plan. (pairs : List Pair) → others (codes "check") pairs ≡ texts rest.now
        → NamesGuard (named (codes "check") pairs) guard → IsPlan route pairs plan) }
    ensures bad { IfErr result (λ e. e ≡ Bad → QueryFault (codes "tx" ∷ []) [] (texts rest.now)) }
{
    match tx_of(alloc, rest) {
        Ok(tx) => Ok(Plan::Ready(commit_request(route, tx, guard))),
        Err(error) => Err(error),
    }
}

fn commit_plan(alloc: Global, route: Route, pairs: &[(String, String)]) -> Result<Plan, QueryError>
    requires { IsTrue (takes_check route) }
    ensures ok { IfOk result (IsPlan route (texts pairs.now)) }
    ensures bad { IfErr result (λ e. e ≡ Bad → HasQueryFault route (texts pairs.now)) }
{
    let parts = parts_of(alloc, pairs, "check")?;
    match guard_of(&parts.named) {
        Ok(guard) => checked_plan(alloc, route, guard, &parts.others),
        Err(error) => Err(error),
    }
}

// The request of a job, of all or of what is owed.
fn apply_request(all: bool) -> Request
    ensures { (pairs : List Pair) (body : List ℕ) → MayGiveAll pairs all
        → Spells pairs body Route.Apply (request_of result) }
{
    if all {
        Request::ApplyAll
    } else {
        Request::Apply
    }
}

fn apply_plan(pairs: &[(String, String)]) -> Result<Plan, QueryError>
    ensures ok { IfOk result (IsPlan Route.Apply (texts pairs.now)) }
    ensures bad { IfErr result (λ e. e ≡ Bad → HasQueryFault Route.Apply (texts pairs.now)) }
{
    match has_all(pairs) {
        Ok(all) => Ok(Plan::Ready(apply_request(all))),
        Err(error) => Err(error),
    }
}

fn set_plan(pairs: &[(String, String)]) -> Result<Plan, QueryError>
    ensures ok { IfOk result (IsPlan Route.Set (texts pairs.now)) }
    ensures bad { IfErr result (λ e. e ≡ Bad → HasQueryFault Route.Set (texts pairs.now)) }
{
    match guard_of(pairs) {
        Ok(guard) => Ok(Plan::Set(guard)),
        Err(error) => Err(error),
    }
}

fn job_plan(alloc: Global, pairs: &[(String, String)]) -> Result<Plan, QueryError>
    ensures ok { IfOk result (IsPlan Route.Plan (texts pairs.now)) }
    ensures bad { IfErr result (λ e. e ≡ Bad → HasQueryFault Route.Plan (texts pairs.now)) }
{
    match tx_if_any(alloc, pairs) {
        Ok(tx) => Ok(Plan::Ready(Request::Plan { tx })),
        Err(error) => Err(error),
    }
}

// Of this file, and the transaction that the rest of the query names, if any.
fn file_plan(alloc: Global, file: Text, rest: &[(String, String)]) -> Result<Plan, QueryError>
    ensures ok { IfOk result (λ plan. (pairs : List Pair) → others (codes "name") pairs ≡ texts rest.now
        → GivesName (named (codes "name") pairs) file → IsPlan Route.PlanFile pairs plan) }
    ensures bad { IfErr result (λ e. e ≡ Bad → QueryFault (codes "tx" ∷ []) [] (texts rest.now)) }
{
    match tx_if_any(alloc, rest) {
        Ok(tx) => Ok(Plan::Ready(Request::PlanFile { file, tx })),
        Err(error) => Err(error),
    }
}

fn job_file_plan(alloc: Global, pairs: &[(String, String)]) -> Result<Plan, QueryError>
    ensures ok { IfOk result (IsPlan Route.PlanFile (texts pairs.now)) }
    ensures bad { IfErr result (λ e. e ≡ Bad → HasQueryFault Route.PlanFile (texts pairs.now)) }
{
    let parts = parts_of(alloc, pairs, "name")?;
    match name_of(alloc, &parts.named) {
        Ok(file) => file_plan(alloc, file, &parts.others),
        Err(error) => Err(error),
    }
}

fn settings_plan(alloc: Global, pairs: &[(String, String)]) -> Result<Plan, QueryError>
    ensures ok { IfOk result (IsPlan Route.Settings (texts pairs.now)) }
    ensures bad { IfErr result (λ e. e ≡ Bad → HasQueryFault Route.Settings (texts pairs.now)) }
{
    match keys_or_prefix_of(alloc, pairs) {
        Ok(request) => Ok(Plan::Ready(request)),
        Err(error) => Err(error),
    }
}

fn patch_plan(alloc: Global, pairs: &[(String, String)]) -> Result<Plan, QueryError>
    ensures ok { IfOk result (IsPlan Route.Patch (texts pairs.now)) }
    ensures bad { IfErr result (λ e. e ≡ Bad → HasQueryFault Route.Patch (texts pairs.now)) }
{
    match tx_of(alloc, pairs) {
        Ok(tx) => Ok(Plan::Patch(tx)),
        Err(error) => Err(error),
    }
}

fn services_plan(alloc: Global, pairs: &[(String, String)]) -> Result<Plan, QueryError>
    ensures ok { IfOk result (IsPlan Route.Services (texts pairs.now)) }
    ensures bad { IfErr result (λ e. e ≡ Bad → HasQueryFault Route.Services (texts pairs.now)) }
{
    match names_of(alloc, pairs) {
        Ok(names) => Ok(Plan::Ready(Request::Services { names })),
        Err(error) => Err(error),
    }
}

fn files_plan(alloc: Global, pairs: &[(String, String)]) -> Result<Plan, QueryError>
    ensures ok { IfOk result (IsPlan Route.Files (texts pairs.now)) }
    ensures bad { IfErr result (λ e. e ≡ Bad → HasQueryFault Route.Files (texts pairs.now)) }
{
    match names_of(alloc, pairs) {
        Ok(names) => Ok(Plan::Ready(Request::ConfigurationFiles { names })),
        Err(error) => Err(error),
    }
}

fn affected_plan(alloc: Global, pairs: &[(String, String)]) -> Result<Plan, QueryError>
    ensures ok { IfOk result (IsPlan Route.Affected (texts pairs.now)) }
    ensures bad { IfErr result (λ e. e ≡ Bad → HasQueryFault Route.Affected (texts pairs.now)) }
{
    match keys_of(alloc, pairs) {
        Ok(keys) => Ok(Plan::Ready(Request::Affected { keys })),
        Err(error) => Err(error),
    }
}

/// What this route and query tell of a request.
pub(crate) fn plan_of(
    alloc: Global,
    route: Route,
    pairs: &[(String, String)],
) -> Result<Plan, QueryError>
    ensures ok { IfOk result (IsPlan route (texts pairs.now)) }
    ensures bad { IfErr result (λ e. e ≡ Bad → HasQueryFault route (texts pairs.now)) }
{
    match route {
        Route::Root
        | Route::OsNames
        | Route::TxList
        | Route::JobNow
        | Route::Store
        | Route::Verify => bare_plan(route, pairs),
        Route::Pending | Route::DropTx => tx_plan(alloc, route, pairs),
        Route::Commit | Route::CommitAndApply => commit_plan(alloc, route, pairs),
        Route::Apply => apply_plan(pairs),
        Route::Set => set_plan(pairs),
        Route::Plan => job_plan(alloc, pairs),
        Route::PlanFile => job_file_plan(alloc, pairs),
        Route::Settings => settings_plan(alloc, pairs),
        Route::Patch => patch_plan(alloc, pairs),
        Route::Services => services_plan(alloc, pairs),
        Route::Files => files_plan(alloc, pairs),
        Route::Affected => affected_plan(alloc, pairs),
    }
}
