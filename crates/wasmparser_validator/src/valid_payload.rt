//! Results of validating a payload.

use crate::resources::ValidatorResources;
use crate::types::Types;
use wasmparser_func_validator::func_to_validate::FuncToValidate;
use wasmparser_payloads::function_body::FunctionBody;

/// The result for a payload that is accepted.
#[derive(Drop)]
pub enum ValidPayload<'a> {
    /// All of the payload is judged.
    Ok,
    /// The body of a function, which is still to be validated.
    Func(FuncToValidate<ValidatorResources>, FunctionBody<'a>),
    /// The end of a module, and what is shown of it.
    End(Types),
}
