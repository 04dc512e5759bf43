//! Tests of texts.
ghost use Rattle.std.specs.Prelude.{◌≡◌, IfOk};
ghost use Rattle.typed_settings.specs.Word.{is_identifier};
ghost use Rattle.typed_settings.specs.Takes.{is_line, is_base64, is_version};

use base64::DecodeAllocError;
use base64::engine::general_purpose::STANDARD;
use semver::Version;
use settings_maps::is_meta_name;
use std::alloc::{AllocError, Global};

/// Whether the text is an identifier.
pub fn is_identifier(text: &[u8]) -> bool
    ensures { result ≡ is_identifier text.now }
{
    is_meta_name(text)
}

/// Whether the text has neither a line feed nor a carriage return.
pub fn is_line(text: &[u8]) -> bool
    ensures { result ≡ is_line text.now }
{
    text.iter().all(|b| *b != b'\n' && *b != b'\r')
}

/// Whether the text is padded standard base64. The only error is out of memory, which it takes for
/// the bytes.
pub fn is_base64(alloc: Global, text: &[u8]) -> Result<bool, AllocError>
    ensures { IfOk result (λ answer. answer ≡ is_base64 text.now) }
{
    match STANDARD.decode(alloc, text) {
        Ok(_) => Ok(true),
        Err(DecodeAllocError::OutOfMemory) => Err(AllocError),
        Err(_) => Ok(false),
    }
}

/// Whether the text is a version of three numbers. To read one takes no memory.
pub fn is_version(alloc: Global, text: &str) -> bool
    ensures { result ≡ is_version text.now }
{
    match Version::parse(alloc, text) {
        Ok(version) => version.pre.is_empty() && version.build.is_empty(),
        Err(_) => false,
    }
}
