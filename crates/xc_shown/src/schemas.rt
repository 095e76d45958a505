// Schemas: the numbers, ids and kinds of their concepts, and the typed ones; and what schemas are
// refused for.
//
// `= case` begins anew, and `= first SPACE LOCAL` numbers a name before all schemas. `= schema FILE`
// adds the schema of its text, and `= again FILE` the same text once more. All other parts ask.

use crate::cases::Part;
use crate::taxonomies::{Taxonomy, add_schema, around_space, push_ids};
use std::alloc::{AllocError, Global};
use xc_concepts::Kind;
use xc_names::NameId;

/// The words of each part, and behind them the answer.
pub fn show(alloc: Global, parts: &[Part]) -> Result<String, AllocError> {
    let mut out = String::new(alloc);
    let mut taxonomy = Taxonomy::new(alloc);
    for part in parts {
        show_part(alloc, &mut out, &mut taxonomy, part)?;
    }
    Ok(out)
}

fn show_part(
    alloc: Global,
    out: &mut String,
    taxonomy: &mut Taxonomy,
    part: &Part,
) -> Result<(), AllocError> {
    let words = part.words.as_str();
    let (head, rest) = around_space(words);
    match head {
        "let" => Ok(()),
        "case" => {
            *taxonomy = Taxonomy::new(alloc);
            push_line(out, words, "")
        }
        "first" => {
            let (space, local) = around_space(rest);
            *taxonomy = Taxonomy::with_name(alloc, space, local)?;
            push_line(out, words, " 0")
        }
        "schema" => add_schema(alloc, out, taxonomy, rest, part.text.as_str()),
        "again" => {
            let text = taxonomy.last.clone()?;
            add_schema(alloc, out, taxonomy, rest, text.as_str())
        }
        _ => answer(alloc, out, taxonomy, words),
    }
}

// The answer to words that ask.
fn answer(
    alloc: Global,
    out: &mut String,
    taxonomy: &Taxonomy,
    words: &str,
) -> Result<(), AllocError> {
    let (head, rest) = around_space(words);
    let (one, other) = around_space(rest);
    match head {
        "name" => push_number(alloc, out, words, taxonomy.names.find(one, other)),
        "id" => push_number(alloc, out, words, taxonomy.concepts.by_id(one, other)),
        "kind" => push_line(out, words, kind_named(taxonomy, one, other)),
        "kind-of" => push_line(out, words, kind_numbered(taxonomy, one)),
        "typed" => push_line(out, words, is_typed(taxonomy, one)),
        "all-typed" => push_typed(alloc, out, taxonomy),
        _ => push_line(out, words, " is not asked here"),
    }
}

fn push_line(out: &mut String, words: &str, answer: &str) -> Result<(), AllocError> {
    out.push_str(words)?;
    out.push_str(answer)?;
    out.push_str("\n")
}

fn push_number(
    alloc: Global,
    out: &mut String,
    words: &str,
    id: Option<NameId>,
) -> Result<(), AllocError> {
    match id {
        Some(id) => push_line(out, words, format!(in alloc; " {}", id.0)?.as_str()),
        None => push_line(out, words, " none"),
    }
}

fn kind_named(taxonomy: &Taxonomy, space: &str, local: &str) -> &'static str {
    match taxonomy.names.find(space, local) {
        Some(id) => kind_word(taxonomy.concepts.kind(id)),
        None => " none",
    }
}

fn kind_numbered(taxonomy: &Taxonomy, number: &str) -> &'static str {
    match number.parse::<u64>() {
        Ok(number) => kind_word(taxonomy.concepts.kind(NameId(number))),
        Err(_) => " none",
    }
}

fn kind_word(kind: Kind) -> &'static str {
    match kind {
        Kind::Decimal => " decimal",
        Kind::Other => " other",
        Kind::Unknown => " unknown",
    }
}

fn is_typed(taxonomy: &Taxonomy, number: &str) -> &'static str {
    match number.parse::<u64>() {
        Ok(number) => {
            if taxonomy.concepts.is_typed(NameId(number)) {
                " yes"
            } else {
                " no"
            }
        }
        Err(_) => " none",
    }
}

fn push_typed(alloc: Global, out: &mut String, taxonomy: &Taxonomy) -> Result<(), AllocError> {
    let Ok(ids) = taxonomy.concepts.typed_dimensions() else {
        return Err(AllocError);
    };
    out.push_str("all-typed")?;
    push_ids(alloc, out, ids.as_slice())?;
    out.push_str("\n")
}
