//! A JSON value as a line.

ghost use Rattle.std.specs.Prelude.{◌≡◌, false, string_bytes, IfOk};
ghost use Rattle.serde_json.specs.View.{view};
ghost use Rattle.serde_json.specs.Written.{has_float};
ghost use Rattle.rgc_answers.specs.Lines.{json_line};

use serde_json::Value;
use std::alloc::{AllocError, Global};

/// The text of a value with a line end.
pub(crate) fn line_of(alloc: Global, value: &Value) -> Result<String, AllocError>
    ensures { IfOk result (λ line. has_float (view value.now) ≡ false → string_bytes line ≡ json_line (view value.now)) }
{
    let mut line = value.to_string(alloc)?;
    line.push_str("\n")?;
    Ok(line)
}
