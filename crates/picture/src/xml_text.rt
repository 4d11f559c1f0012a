//! Text in XML.

use std::alloc::{AllocError, Global};

/// Writes a text as XML has it, cut after so many letters: dots say that there is more.
pub fn write_escaped(text: &str, most: usize, xml: &mut String) -> Result<(), AllocError> {
    for (place, letter) in text.chars().enumerate() {
        if place >= most {
            return write!(xml, "…");
        }
        match entity(letter) {
            Some(name) => write!(xml, "{name}")?,
            None => write!(xml, "{letter}")?,
        }
    }
    Ok(())
}

/// The entity of a letter that XML uses itself.
fn entity(letter: char) -> Option<&'static str> {
    match letter {
        '&' => Some("&amp;"),
        '<' => Some("&lt;"),
        '>' => Some("&gt;"),
        '"' => Some("&quot;"),
        _ => None,
    }
}
