// The words of a line.
ghost use Rattle.std.specs.Prelude.{◌≡◌, ◌==◌, position};
ghost use Rattle.std.specs.Option.{option_copied};
ghost use Rattle.trace_audit.specs.Line.{word_of, rest_of};

// The first word, and what follows the space after it, if there is one.
pub(crate) fn split_word(text: &[u8]) -> (&[u8], Option<&[u8]>)
    ensures word { result.0.now ≡ word_of text.now }
    ensures rest { option_copied result.1 ≡ rest_of text.now }
{
    match first_space(text) {
        Some(i) => (&text[..i], Some(&text[i + 1..])),
        None => (text, None),
    }
}

// Where the first space is.
fn first_space(text: &[u8]) -> Option<usize>
    ensures { result ≡ position (λ byte. byte == 32) text.now }
{
    text.iter().position(|byte| *byte == b' ')
}
