//! The characters of XML 1.0.
ghost use Rattle.std.specs.Prelude.{◌≡◌};
ghost use Rattle.xc_chars.specs.Characters.{is_character, is_space, is_name_start, is_name_char};

/// Whether a document may have the character: `Char` of XML 1.0, section 2.2.
#[tactic(auto, unfolding(crate::specs::Characters::is_character))]
pub fn is_character(c: char) -> bool
    ensures { result ≡ is_character c }
{
    matches!(
        c,
        '\t' | '\n' | '\r' | ' '..='\u{D7FF}' | '\u{E000}'..='\u{FFFD}' | '\u{10000}'..='\u{10FFFF}'
    )
}

/// Whether the character is white space: a space, a tab, a line feed or a carriage return.
pub fn is_space(c: char) -> bool
    ensures { result ≡ is_space c }
{
    matches!(c, ' ' | '\t' | '\n' | '\r')
}

/// Whether a name may begin with the character: `NameStartChar` of XML 1.0, section 2.3, but for the colon.
#[tactic(auto, unfolding(crate::specs::Characters::is_name_start))]
pub fn is_name_start(c: char) -> bool
    ensures { result ≡ is_name_start c }
{
    matches!(
        c,
        'A'..='Z'
            | 'a'..='z'
            | '_'
            | '\u{C0}'..='\u{D6}'
            | '\u{D8}'..='\u{F6}'
            | '\u{F8}'..='\u{2FF}'
            | '\u{370}'..='\u{37D}'
            | '\u{37F}'..='\u{1FFF}'
            | '\u{200C}'..='\u{200D}'
            | '\u{2070}'..='\u{218F}'
            | '\u{2C00}'..='\u{2FEF}'
            | '\u{3001}'..='\u{D7FF}'
            | '\u{F900}'..='\u{FDCF}'
            | '\u{FDF0}'..='\u{FFFD}'
            | '\u{10000}'..='\u{EFFFF}'
    )
}

/// Whether a name may have the character: `NameChar` of XML 1.0, section 2.3, but for the colon.
#[tactic(auto, unfolding(crate::specs::Characters::is_name_char))]
pub fn is_name_char(c: char) -> bool
    ensures { result ≡ is_name_char c }
{
    is_name_start(c)
        || matches!(c, '-' | '.' | '0'..='9' | '\u{B7}' | '\u{300}'..='\u{36F}' | '\u{203F}'..='\u{2040}')
}
