//! What an answer gives.
ghost use Rattle.std.specs.Prelude.{◌≡◌, ◌≢◌, ◌⊎◌, Ok, Err, IfOk, IfErr};
ghost use Rattle.json_trees.specs.declared.scalar_error.ScalarError.TheVariants as scalar_error;
ghost use Rattle.setting_generators.specs.Asking.{answer_value, output_value};
ghost use Rattle.setting_generators.specs.declared.generate_error.GenerateError.TheVariants.{BadOutput, Memory};

use crate::GenerateError;
use json_trees::{Scalar, ScalarError};
use key_names::Key;
use outside::Answer;
use std::alloc::Global;

/// The most bytes that an output may have.
pub const MOST_OUTPUT: usize = 1_048_576;

// Why the output for this key is refused, which is no scalar for this cause.
fn refusal_of(key: &Key, error: ScalarError) -> GenerateError
    ensures { (result ≡ Memory) ⊎ ((result ≡ BadOutput key.now) × (error ≢ scalar_error.Memory)) }
{
    match error {
        ScalarError::Memory => GenerateError::Memory,
        _ => bad_output(key),
    }
}

// The refusal of the output for this key.
fn bad_output(key: &Key) -> GenerateError
    ensures { (result ≡ BadOutput key.now) ⊎ (result ≡ Memory) }
{
    match key.copy() {
        Ok(key) => GenerateError::BadOutput { key },
        Err(_) => GenerateError::Memory,
    }
}

// The scalar that the output is, which is given to this key.
fn output_value(alloc: Global, key: &Key, output: &[u8]) -> Result<Scalar, GenerateError>
    ensures ok { IfOk result (λ value. output_value key.now output.now ≡ Ok value) }
    ensures refused { IfErr result (λ e. e ≢ Memory → output_value key.now output.now ≡ Err e) }
{
    if output.len() > MOST_OUTPUT {
        return Err(bad_output(key));
    }
    match Scalar::of_json(alloc, output) {
        Ok(value) => Ok(value),
        Err(error) => Err(refusal_of(key, error)),
    }
}

/// What the answer gives to the key: where its status is 0, the scalar that its output reads as.
pub fn answer_value(alloc: Global, key: &Key, answer: &Answer) -> Result<Scalar, GenerateError>
    ensures ok { IfOk result (λ value. answer_value key.now answer.now.status answer.now.output.items ≡ Ok value) }
    ensures refused { IfErr result (λ e. e ≢ Memory → answer_value key.now answer.now.status answer.now.output.items ≡ Err e) }
{
    if answer.status == 0 {
        return output_value(alloc, key, &answer.output);
    }
    match key.copy() {
        Ok(key) => Err(GenerateError::Status {
            key,
            number: answer.status,
        }),
        Err(_) => Err(GenerateError::Memory),
    }
}
