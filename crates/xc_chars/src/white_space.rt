// Texts without the white space around them.
ghost use Rattle.std.specs.Prelude.{◌≡◌};
ghost use Rattle.xc_chars.specs.Characters.{is_space};
ghost use Rattle.xc_chars.specs.Steps.Spaces.{begins_with_space, ends_with_space};
ghost use Rattle.xc_chars.specs.Trimmed.{without_front, without_end, trimmed};

/// The text without white space at its start and at its end: spaces, tabs, line feeds and carriage returns.
pub fn trimmed(text: &str) -> &str
    ensures { result.now ≡ trimmed text.now }
{
    without_end(without_front(text))
}

fn without_front(text: &str) -> &str
    ensures { result.now ≡ without_front text.now }
{
    let mut rest = text;
    while begins_with_space(rest) {
        rest = &rest[1..];
    }
    rest
}

fn without_end(text: &str) -> &str
    ensures { result.now ≡ without_end text.now }
{
    let mut rest = text;
    while ends_with_space(rest) {
        rest = &rest[..rest.len() - 1];
    }
    rest
}

fn begins_with_space(text: &str) -> bool
    ensures { result ≡ begins_with_space text.now }
{
    match text.as_bytes() {
        [] => false,
        [first, ..] => is_space_byte(*first),
    }
}

fn ends_with_space(text: &str) -> bool
    ensures { result ≡ ends_with_space text.now }
{
    match text.as_bytes() {
        [] => false,
        [.., last] => is_space_byte(*last),
    }
}

fn is_space_byte(byte: u8) -> bool
    ensures { result ≡ is_space byte }
{
    matches!(byte, b' ' | b'\t' | b'\n' | b'\r')
}
