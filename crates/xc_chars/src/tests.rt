use super::characters::{is_name_char, is_name_start};
use super::*;

#[test]
fn texts(rt: HostRuntime) {
    for (text, want) in [
        ("", ""),
        (" \t\r\n", ""),
        (" a b\n", "a b"),
        ("a", "a"),
        ("\u{A0}ä \r", "\u{A0}ä"),
        ("\u{C}a", "\u{C}a"),
    ] {
        assert_eq!(rt; trimmed(text), want, "{text:?}");
    }
    for (text, parts) in [
        ("eg:T", Some(("eg", "T"))),
        ("_.-0:\u{E9}\u{B7}", Some(("_.-0", "\u{E9}\u{B7}"))),
        ("a:b:c", None),
        ("a::b", None),
        (":b", None),
        ("a:", None),
        (":", None),
        ("a", None),
        ("", None),
        ("1a:b", None),
        ("a:-b", None),
        ("a b:c", None),
        (" a:b", None),
        ("a:b*c", None),
    ] {
        assert_eq!(rt; split(text), parts);
    }
    for (text, parts) in [
        ("e:0001", Some(("e", "0001"))),
        ("a:b:c", Some(("a", "b:c"))),
        (":", Some(("", ""))),
        ("a", None),
    ] {
        assert_eq!(rt; around(text, ':'), parts);
    }
    for (text, plain) in [
        ("a", true),
        ("a.b-c", true),
        ("", false),
        ("a:b", false),
        ("-a", false),
    ] {
        assert_eq!(rt; is_plain_name(text), plain);
    }
    for (path, name) in [
        ("t.xsd", "t.xsd"),
        ("a/b/t.xsd", "t.xsd"),
        ("a/", ""),
        ("", ""),
    ] {
        assert_eq!(rt; file_name(path), name);
    }
}

// The first and the last character of each range of XML 1.0, and those just before and behind it, each with whether a
// name begins with it and whether a name has it.
const EDGES: [(char, bool, bool); 69] = [
    (',', false, false),
    ('-', false, true),
    ('.', false, true),
    ('/', false, false),
    ('0', false, true),
    ('9', false, true),
    (':', false, false),
    ('@', false, false),
    ('A', true, true),
    ('Z', true, true),
    ('[', false, false),
    ('^', false, false),
    ('_', true, true),
    ('`', false, false),
    ('a', true, true),
    ('z', true, true),
    ('{', false, false),
    ('\u{B6}', false, false),
    ('\u{B7}', false, true),
    ('\u{B8}', false, false),
    ('\u{BF}', false, false),
    ('\u{C0}', true, true),
    ('\u{D6}', true, true),
    ('\u{D7}', false, false),
    ('\u{D8}', true, true),
    ('\u{F6}', true, true),
    ('\u{F7}', false, false),
    ('\u{F8}', true, true),
    ('\u{2FF}', true, true),
    ('\u{300}', false, true),
    ('\u{36F}', false, true),
    ('\u{370}', true, true),
    ('\u{37D}', true, true),
    ('\u{37E}', false, false),
    ('\u{37F}', true, true),
    ('\u{1FFF}', true, true),
    ('\u{2000}', false, false),
    ('\u{200B}', false, false),
    ('\u{200C}', true, true),
    ('\u{200D}', true, true),
    ('\u{200E}', false, false),
    ('\u{203E}', false, false),
    ('\u{203F}', false, true),
    ('\u{2040}', false, true),
    ('\u{2041}', false, false),
    ('\u{206F}', false, false),
    ('\u{2070}', true, true),
    ('\u{218F}', true, true),
    ('\u{2190}', false, false),
    ('\u{2BFF}', false, false),
    ('\u{2C00}', true, true),
    ('\u{2FEF}', true, true),
    ('\u{2FF0}', false, false),
    ('\u{3000}', false, false),
    ('\u{3001}', true, true),
    ('\u{D7FF}', true, true),
    ('\u{E000}', false, false),
    ('\u{F8FF}', false, false),
    ('\u{F900}', true, true),
    ('\u{FDCF}', true, true),
    ('\u{FDD0}', false, false),
    ('\u{FDEF}', false, false),
    ('\u{FDF0}', true, true),
    ('\u{FFFD}', true, true),
    ('\u{FFFE}', false, false),
    ('\u{FFFF}', false, false),
    ('\u{10000}', true, true),
    ('\u{EFFFF}', true, true),
    ('\u{F0000}', false, false),
];

#[test]
fn name_ranges(rt: HostRuntime) {
    for (c, begins, stands) in EDGES {
        assert_eq!(rt; is_name_start(c), begins);
        assert_eq!(rt; is_name_char(c), stands);
    }
}
