//! Values as lines.

ghost use Rattle.std.specs.Prelude.{◌≡◌, IfOk, false};
ghost use Rattle.serde_json.specs.View.{view};
ghost use Rattle.serde_json.specs.Written.{has_float};
ghost use Rattle.json_answers.specs.ReportData.{line_of_data};

use outcome_trace::{Answer, Status};
use serde_json::Value;
use std::alloc::{AllocError, Global};

/// An answer: the text of a value without spaces, and a line feed. No part of the value is a number with a point.
/// `AllocError` where memory ran out.
pub fn value_answer(alloc: Global, value: &Value, status: Status) -> Result<Answer, AllocError>
    requires { has_float (view value.now) ≡ false }
    ensures line { IfOk result (λ a. a.text.items ≡ line_of_data (view value.now)) }
    ensures status { IfOk result (λ a. a.status ≡ status) }
{
    let mut text = value.to_string(alloc)?.into_bytes();
    text.push(b'\n')?;
    Ok(Answer { text, status })
}
