//! Refusals, each with the path as it is written.
ghost use Rattle.std.specs.Prelude.{◌≡◌, ◌≢◌};
ghost use Rattle.template_eval.specs.Written.{path_text, child_text};

use crate::RenderError;
use crate::written::{child_text, path_text};
use std::alloc::Global;
use template_reader::Walk;

/// `Missing`, or out of memory.
pub fn missing(alloc: Global, path: &Walk) -> RenderError
    ensures { result ≢ RenderError.Memory → result ≡ RenderError.Missing (path_text path.now) }
{
    match path_text(alloc, path) {
        Ok(path) => RenderError::Missing { path },
        Err(_) => RenderError::Memory,
    }
}

/// `NotScalar`, or out of memory.
pub fn not_scalar(alloc: Global, path: &Walk) -> RenderError
    ensures { result ≢ RenderError.Memory → result ≡ RenderError.NotScalar (path_text path.now) }
{
    match path_text(alloc, path) {
        Ok(path) => RenderError::NotScalar { path },
        Err(_) => RenderError::Memory,
    }
}

/// `NotList`, or out of memory.
pub fn not_list(alloc: Global, path: &Walk) -> RenderError
    ensures { result ≢ RenderError.Memory → result ≡ RenderError.NotList (path_text path.now) }
{
    match path_text(alloc, path) {
        Ok(path) => RenderError::NotList { path },
        Err(_) => RenderError::Memory,
    }
}

/// `BadBase64`, or out of memory.
pub fn bad_base64(alloc: Global, path: &Walk) -> RenderError
    ensures { result ≢ RenderError.Memory → result ≡ RenderError.BadBase64 (path_text path.now) }
{
    match path_text(alloc, path) {
        Ok(path) => RenderError::BadBase64 { path },
        Err(_) => RenderError::Memory,
    }
}

/// `Missing` of a child, or out of memory.
pub fn child_missing(alloc: Global, path: &Walk, name: &str) -> RenderError
    ensures { result ≢ RenderError.Memory
        → result ≡ RenderError.Missing (child_text path.now name.now) }
{
    match child_text(alloc, path, name) {
        Ok(path) => RenderError::Missing { path },
        Err(_) => RenderError::Memory,
    }
}

/// `NotScalar` of a child, or out of memory.
pub fn child_not_scalar(alloc: Global, path: &Walk, name: &str) -> RenderError
    ensures { result ≢ RenderError.Memory
        → result ≡ RenderError.NotScalar (child_text path.now name.now) }
{
    match child_text(alloc, path, name) {
        Ok(path) => RenderError::NotScalar { path },
        Err(_) => RenderError::Memory,
    }
}
