//! How a run ended, and the moves that were passed over, as JSON values.

ghost use Rattle.std.specs.Prelude.{◌≡◌, string_bytes, IfOk};
ghost use Rattle.serde_json.specs.View.{view};
ghost use Rattle.rgc_answers.specs.Lines.{json_line};
ghost use Rattle.rgc_answers.specs.Records.{passed_data, why_name, end_data};

use crate::json_line::line_of;
use rg_floor::closed::Passed;
use rg_floor::turn::Why;
use serde_json::{Value, json};
use std::alloc::{AllocError, Global};

/// A move that was passed over.
fn passed_value(alloc: Global, passed: Passed) -> Result<Value, AllocError>
    ensures { IfOk result (λ v. view v ≡ passed_data passed) }
{
    let number = passed.refusal.code();
    json!(in alloc; {"kind": "passed", "move": passed.number, "number": number, "records": passed.records})
}

/// Its line.
pub(crate) fn passed_line(alloc: Global, passed: Passed) -> Result<String, AllocError>
    ensures { IfOk result (λ line. string_bytes line ≡ json_line (passed_data passed)) }
{
    let value = passed_value(alloc, passed)?;
    line_of(alloc, &value)
}

/// The word for why a run is over.
fn why_name(why: Why) -> &'static str
    ensures { result.now ≡ why_name why }
{
    match why {
        Why::Ended => "ended",
        Why::Limit => "limit",
        Why::Stuck => "stuck",
        Why::Stopped => "stopped",
    }
}

/// Why a run is over.
fn end_value(alloc: Global, why: Why) -> Result<Value, AllocError>
    ensures { IfOk result (λ v. view v ≡ end_data why) }
{
    let name = why_name(why);
    json!(in alloc; {"kind": "run", "why": name})
}

/// Its line.
pub(crate) fn end_line(alloc: Global, why: Why) -> Result<String, AllocError>
    ensures { IfOk result (λ line. string_bytes line ≡ json_line (end_data why)) }
{
    let value = end_value(alloc, why)?;
    line_of(alloc, &value)
}
