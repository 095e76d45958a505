// Texts cut at a byte.
ghost use Rattle.std.specs.Prelude.{◌≡◌, ◌<◌, option_map};
ghost use Rattle.xc_chars.specs.Parts.{pair_view, is_byte, around, file_name};

/// What stands before the first place of a character of ASCII in a text and after it, whatever that is;
/// None where it does not stand there.
pub fn around(text: &str, mark: char) -> Option<(&str, &str)>
    requires { mark < 128 }
    ensures { option_map pair_view result ≡ around (is_byte mark) text.now }
{
    match text.split_once(mark) {
        Some((before, after)) => Some((before, after)),
        None => None,
    }
}

/// The name of a file without its folder: what stands after the last `/` of a path, or the whole where there is none.
#[tactic(auto, using(crate::proofs::Paths::name_after, crate::proofs::Paths::name_alone))]
pub fn file_name(path: &str) -> &str
    ensures { result.now ≡ file_name path.now }
{
    let mut name = path;
    while let Some((_, after)) = around(name, '/') {
        name = after;
    }
    name
}
