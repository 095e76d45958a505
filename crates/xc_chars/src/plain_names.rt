// Plain names, and two of them joined by a colon.
ghost use Rattle.std.specs.Prelude.{◌≡◌, option_map};
ghost use Rattle.std.specs.Str.{chars};
ghost use Rattle.std.specs.List.{list_all};
ghost use Rattle.xc_chars.specs.Characters.{is_name_char};
ghost use Rattle.xc_chars.specs.Parts.{pair_view};
ghost use Rattle.xc_chars.specs.PlainNames.{is_plain_name, begins_name, split};

use crate::characters::{is_name_char, is_name_start};
use crate::parts::around;

/// The prefix and the local part of a text of exactly two plain names joined by one colon
/// (`PrefixedName` of Namespaces in XML 1.0, section 4); None for every other text.
pub fn split(text: &str) -> Option<(&str, &str)>
    ensures { option_map pair_view result ≡ split text.now }
{
    match around(text, ':') {
        Some((prefix, local)) => {
            if is_plain_name(prefix) && is_plain_name(local) {
                Some((prefix, local))
            } else {
                None
            }
        }
        None => None,
    }
}

/// Whether the text is a plain name: an `NCName` of Namespaces in XML 1.0, section 3, made of the
/// characters that XML 1.0 lists for names, but without a colon.
pub fn is_plain_name(text: &str) -> bool
    ensures { result ≡ is_plain_name text.now }
{
    begins_name(text) && are_name_chars(text)
}

fn begins_name(text: &str) -> bool
    ensures { result ≡ begins_name (chars text.now) }
{
    match text.chars().next() {
        Some(c) => is_name_start(c),
        None => false,
    }
}

fn are_name_chars(text: &str) -> bool
    ensures { result ≡ list_all is_name_char (chars text.now) }
{
    text.chars().all(|c| is_name_char(c))
}
