ghost use Rattle.json_answers.specs.Line.{IsLine};
ghost use Rattle.serde_json.specs.Data.{array};
ghost use Rattle.serde_json.specs.View.{items_of, view};
ghost use Rattle.std.specs.Prelude.{◌≡◌, IfOk, map};
ghost use Rattle.std.specs.String.{string_bytes};

use serde_json::Value;
use std::alloc::{AllocError, Global};

/// A part of an answer that is an object.
pub(crate) trait Shown {
    ghost use Rattle.serde_json.specs.Data.{Data};

    /// What it is as JSON.
    ghost content: { Self → Data };

    fn value(&self, alloc: Global) -> Result<Value, AllocError>
        ensures { IfOk result (λ value. view value ≡ content self.now) };
}

/// The list of these.
pub(crate) fn list_of<T: Shown>(alloc: Global, rows: &[T]) -> Result<Value, AllocError>
    ensures { IfOk result (λ value. view value ≡ array (items_of (map T.Shown.content rows.now))) }
{
    let mut list = Vec::new(alloc);
    for row in rows {
        serde_json::push(&mut list, row.value(alloc)?)?;
    }
    Ok(Value::Array(list))
}

/// The line that a value is.
pub(crate) fn line_of(alloc: Global, value: &Value) -> Result<String, AllocError>
    ensures { IfOk result (λ line. IsLine (string_bytes line) (view value.now)) }
{
    let mut line = value.to_string(alloc)?;
    line.push_str("\n")?;
    Ok(line)
}
