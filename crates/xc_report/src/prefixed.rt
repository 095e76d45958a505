// Expanded names of texts with a prefix, lent by the text and by what its prefix stands for.
ghost use Rattle.std.specs.Prelude.{◌≡◌, option_map};
ghost use Rattle.xc_names.specs.Names.{lent_name};
ghost use Rattle.xc_report.specs.Prefixed.{expanded_name, expanded_loosely, bound_name};

use xc_chars::{around, split};
use xc_names::Prefixes;

/// The name of two plain names joined by a colon, whose prefix is declared.
pub fn expanded_name<'a>(prefixes: &'a Prefixes, text: &'a str) -> Option<(&'a str, &'a str)>
    ensures { option_map lent_name result ≡ expanded_name prefixes.now text.now }
{
    match split(text) {
        Some((prefix, local)) => bound_name(prefixes, prefix, local),
        None => None,
    }
}

/// The name of a text with a declared prefix before its first colon, and anything after it.
pub fn expanded_loosely<'a>(prefixes: &'a Prefixes, text: &'a str) -> Option<(&'a str, &'a str)>
    ensures { option_map lent_name result ≡ expanded_loosely prefixes.now text.now }
{
    match around(text, ':') {
        Some((prefix, local)) => bound_name(prefixes, prefix, local),
        None => None,
    }
}

fn bound_name<'a>(
    prefixes: &'a Prefixes,
    prefix: &str,
    local: &'a str,
) -> Option<(&'a str, &'a str)>
    ensures { option_map lent_name result ≡ bound_name prefixes.now (prefix.now, local.now) }
{
    match prefixes.get(prefix) {
        Some(uri) => Some((uri, local)),
        None => None,
    }
}
