//! The ids of requests.

ghost use Rattle.std.specs.Prelude.{◌≡◌, ◌≢◌, Ok, None, IfOk, IfSome};
ghost use Rattle.json.specs.Value.{value_view};
ghost use Rattle.serving.specs.Answers.{id_json};
ghost use Rattle.serving.specs.declared.request_id.RequestId.{RequestId as AnyId};

use crate::numeral::Numeral;
use json::Value;
use std::alloc::{AllocError, Global};

/// The id of a request, which its answer repeats: null, a number by its digits, or a text.
#[derive(Drop)]
pub enum RequestId {
    Null,
    Number(Numeral),
    Text(String),
}

impl RequestId {
    /// The id that this value is. None where it can't be one.
    pub(crate) fn of(alloc: Global, value: &Value<'_>) -> Result<Option<RequestId>, AllocError>
        ensures found { IfOk result (λ id. IfSome id (λ i. id_json i ≡ value_view value.now)) }
        ensures none { result ≡ Ok None → (i : AnyId) → id_json i ≢ value_view value.now }
    {
        Ok(match value {
            Value::Null => Some(RequestId::Null),
            Value::Number(digits) => match Numeral::read(alloc, digits)? {
                Some(numeral) => Some(RequestId::Number(numeral)),
                None => None,
            },
            Value::String(text) => Some(RequestId::Text(String::from_str(alloc, text)?)),
            _ => None,
        })
    }

    /// How many bytes it takes at most in a line.
    pub fn len(&self) -> usize {
        match self {
            RequestId::Null => 4,
            RequestId::Number(digits) => digits.as_str().len(),
            RequestId::Text(text) => escaped_len(text.as_bytes()),
        }
    }
}

/// How many bytes a text takes at most in a line, beside its quotes: an escape has six at most.
fn escaped_len(text: &[u8]) -> usize {
    let mut len = text.len();
    for byte in text {
        if *byte < b' ' || *byte == b'"' || *byte == b'\\' {
            len = len.saturating_add(5);
        }
    }
    len
}
