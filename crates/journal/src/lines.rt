//! A text's lines.

ghost use Rattle.std.specs.Prelude.{◌≡◌, ◌⊎◌, ◌++◌, ◌∷◌, [], length, ◌<◌};

/// The first line of a text that isn't empty, without its end, and the text behind it. The last line may lack its end.
pub fn first_line(text: &[u8]) -> (&[u8], &[u8])
    ensures { ((text.now ≡ result.0.now ++ 10 ∷ result.1.now))
        ⊎ ((text.now ≡ result.0.now) × (result.1.now ≡ [])) }
{
    match text.iter().position(|byte| *byte == b'\n') {
        Some(place) => (&text[..place], &text[place + 1..]),
        None => (text, &[]),
    }
}
