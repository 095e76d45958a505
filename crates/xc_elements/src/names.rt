// Names as they are written.
ghost use Rattle.std.specs.Prelude.{◌≡◌, option_map};
ghost use Rattle.std.specs.Str.{chars};
ghost use Rattle.xc_elements.specs.Elements.{same_name};
ghost use Rattle.xc_elements.specs.Items.{plain_name, qualified_name};
ghost use Rattle.xc_elements.specs.Steps.Views.{lent_text, at_front, name_view};

use crate::texts::{Class, next_char, run, same_text};
use xc_chars::characters::is_name_start;

/// A name of a tag or an attribute as it is written: two plain names joined by a colon, or one alone.
#[derive(Clone, Copy, Debug, PartialEq, Eq)]
pub(crate) struct QualifiedName<'a> {
    /// What stands before the colon; empty where there is none.
    pub(crate) prefix: &'a str,
    /// The other plain name.
    pub(crate) local: &'a str,
}

/// A name without a colon.
#[tactic(auto, unfolding(crate::specs::Fronts::by_next, crate::specs::Fronts::refuse, crate::specs::Items::plain_name))]
pub(crate) fn plain_name(text: &str) -> Option<(&str, &str)>
    ensures { option_map (at_front lent_text) result ≡ plain_name (chars text.now) }
{
    match next_char(text) {
        Some((c, _)) => {
            if is_name_start(c) {
                run(text, Class::Name)
            } else {
                None
            }
        }
        None => None,
    }
}

/// A name of a tag or an attribute.
#[tactic(auto, using(crate::proofs::TextLaws::no_text), unfolding(crate::specs::Fronts::followed_by, crate::specs::Fronts::give, crate::specs::Fronts::by_next, crate::specs::Items::qualified_name))]
pub(crate) fn qualified_name(text: &str) -> Option<(QualifiedName<'_>, &str)>
    ensures { option_map (at_front name_view) result ≡ qualified_name (chars text.now) }
{
    let Some((first, rest)) = plain_name(text) else {
        return None;
    };
    match next_char(rest) {
        Some((':', after)) => match plain_name(after) {
            Some((local, rest)) => Some((
                QualifiedName {
                    prefix: first,
                    local,
                },
                rest,
            )),
            None => None,
        },
        Some(_) => Some((
            QualifiedName {
                prefix: "",
                local: first,
            },
            rest,
        )),
        None => None,
    }
}

/// Whether two names are the same as they are written.
pub(crate) fn same_name(one: QualifiedName, other: QualifiedName) -> bool
    ensures { result ≡ same_name (name_view one.entry) (name_view other.entry) }
{
    same_text(one.prefix, other.prefix) && same_text(one.local, other.local)
}
