//! That files are accepted.

ghost use Rattle.std.specs.Prelude.{◌≡◌, string_bytes, IfOk};
ghost use Rattle.serde_json.specs.View.{view};
ghost use Rattle.rgc_answers.specs.Accepted.{accepted_data, accepted_text};

use crate::json_line::line_of;
use rgc_line::Format;
use serde_json::{Value, json};
use std::alloc::{AllocError, Global};

/// That files are accepted, as a JSON value.
fn accepted_value(alloc: Global) -> Result<Value, AllocError>
    ensures { IfOk result (λ v. view v ≡ accepted_data) }
{
    json!(in alloc; {"kind": "accepted"})
}

/// That files are accepted.
pub fn accepted_text(alloc: Global, format: Format) -> Result<String, AllocError>
    ensures { IfOk result (λ text. string_bytes text ≡ accepted_text format) }
{
    match format {
        Format::Plain => String::from_str(alloc, "accepted\n"),
        Format::Json => {
            let value = accepted_value(alloc)?;
            line_of(alloc, &value)
        }
    }
}
