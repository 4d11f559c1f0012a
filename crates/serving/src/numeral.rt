//! Numbers, as JSON spells them.

ghost use Rattle.std.specs.Prelude.{◌≡◌, Ok, None, IfOk, IfSome};
ghost use Rattle.std.specs.String.{string_bytes};
ghost use Rattle.json.specs.Print.{IsNumber};

use json::is_number;
use std::alloc::{AllocError, Global};

/// The text of a JSON number.
#[derive(Drop)]
pub struct Numeral {
    text: String,
    ghost is_number: { IsNumber (string_bytes text) },
}

impl Numeral {
    /// The number that this text spells. None where it spells none.
    pub(crate) fn read(alloc: Global, text: &str) -> Result<Option<Numeral>, AllocError>
        ensures found { IfOk result (λ n.
            IfSome n (λ numeral. string_bytes numeral.text ≡ text.now)) }
        ensures none { result ≡ Ok None → ¬ IsNumber text.now }
    {
        if !is_number(text) {
            return Ok(None);
        }
        Ok(Some(Numeral {
            text: String::from_str(alloc, text)?,
        }))
    }

    pub(crate) fn as_str(&self) -> &str
        ensures text { result.now ≡ string_bytes self.now.text }
        ensures number { IsNumber result.now }
    {
        self.text.as_str()
    }
}
