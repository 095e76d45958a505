// Texts of a fixed form.
ghost use Rattle.std.specs.Prelude.{◌≡◌};
ghost use Rattle.xc_report.specs.Forms.{fits_place, fits_places, has_form};

/// Whether a text is as long as a form and has a digit at each `d` of it, and else the same bytes.
pub fn has_form(form: &[u8], text: &[u8]) -> bool
    ensures { result ≡ has_form form.now text.now }
{
    form.len() == text.len() && fits_places(form, text)
}

fn fits_places(form: &[u8], text: &[u8]) -> bool
    ensures { result ≡ fits_places form.now text.now }
{
    form.iter()
        .zip(text)
        .all(|(place, byte)| fits_place(*place, *byte))
}

fn fits_place(place: u8, byte: u8) -> bool
    ensures { result ≡ fits_place place byte }
{
    if place == b'd' {
        byte.is_ascii_digit()
    } else {
        byte == place
    }
}
