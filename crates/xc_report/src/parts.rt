// The parts of a report's JSON value that facts are read from.
ghost use Rattle.std.specs.Prelude.{◌≡◌, option_map};
ghost use Rattle.std.specs.List.{list_all};
ghost use Rattle.serde_json.specs.Find.{as_object};
ghost use Rattle.serde_json.specs.View.{view, members_view};
ghost use Rattle.xc_report.specs.Json.{text_at, member_list, has_json_type, are_texts, is_text};

use serde_json::{Map, Value};

// The document type of xBRL-JSON 1.0.
const DOCUMENT_TYPE: &str = "https://xbrl.org/2021/xbrl-json";

/// Whether the information of a report names the document type of xBRL-JSON 1.0.
pub fn has_json_type(info: &Value) -> bool
    ensures { result ≡ has_json_type (view info.now) }
{
    match text_at(info, "documentType") {
        Some(text) => text == DOCUMENT_TYPE,
        None => false,
    }
}

/// Whether a value is an object of texts.
pub fn are_texts(value: &Value) -> bool
    ensures { result ≡ are_texts (as_object (view value.now)) }
{
    match value.as_object() {
        Some(members) => each_is_text(members),
        None => false,
    }
}

fn each_is_text(members: &Map<String, Value>) -> bool
    ensures { result ≡ list_all is_text (member_list (members_view members.now.entries)) }
{
    for (_, value) in members {
        if !value.is_string() {
            return false;
        }
    }
    true
}

fn text_at<'a>(value: &'a Value, name: &str) -> Option<&'a str>
    ensures { option_map (λ text. text.now) result ≡ text_at name.now (view value.now) }
{
    value.get(name).and_then(Value::as_str)
}
