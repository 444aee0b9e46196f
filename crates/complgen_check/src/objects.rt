//! Formats findings as JSON objects.

ghost use Rattle.std.specs.Prelude.{◌≡◌, IfOk, Some, decimal};
ghost use Rattle.std.specs.String.{string_bytes};
ghost use Rattle.json.specs.Json.{document};
ghost use Rattle.json.specs.Print.{IsNumber};
ghost use Rattle.json.specs.Value.{value_view};
ghost use Rattle.complgen_check.specs.Objects.{finding_json, finding_object, object_with};

use crate::errors::{Finding, Lines};
use crate::text_lines::level_text;
use json::{Value, to_vec};
use std::alloc::{AllocError, Global};

/// Returns `finding` as a JSON object with the keys `line`, `column`, `level`, `path` and `text`,
/// without spaces. A JSON reader gets back what was written.
///
/// # Errors
///
/// `AllocError` if an allocation fails.
pub(crate) fn object(
    alloc: Global,
    lines: &Lines<'_>,
    finding: &Finding,
) -> Result<Vec<u8>, AllocError>
    ensures text { IfOk result (λ text. text.items ≡ finding_object lines.now finding.now) }
    ensures reads { IfOk result (λ text.
        document text.items ≡ Some (finding_json lines.now finding.now)) }
{
    let (line, column) = lines.line_and_column(finding.offset);
    let line_digits = digits(alloc, line)?;
    let column_digits = digits(alloc, column)?;
    let object = value(alloc, line_digits.as_str(), column_digits.as_str(), finding)?;
    to_vec(alloc, &object)
}

fn digits(alloc: Global, number: usize) -> Result<String, AllocError>
    ensures text { IfOk result (λ digits. string_bytes digits ≡ decimal number) }
    ensures number { IfOk result (λ digits. IsNumber (string_bytes digits)) }
{
    format!(in alloc; "{number}")
}

// Returns the object of `finding`. `line` and `column` are digits.
fn value<'f>(
    alloc: Global,
    line: &'f str,
    column: &'f str,
    finding: &'f Finding,
) -> Result<Value<'f>, AllocError>
    ensures { IfOk result (λ value. value_view value
        ≡ object_with line.now column.now finding.now) }
{
    let level = level_text(finding.level);
    let (path, text) = (finding.path.as_str(), finding.text.as_str());
    let members = vec![in alloc;
        ("line", Value::Number(line)),
        ("column", Value::Number(column)),
        ("level", Value::String(level)),
        ("path", Value::String(path)),
        ("text", Value::String(text)),
    ]?;
    Ok(Value::Object(members))
}
