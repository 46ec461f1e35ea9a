// Whether a text is a name.
ghost use Rattle.std.specs.Prelude.{◌≡◌};
ghost use Rattle.std.specs.List.{list_any};
ghost use Rattle.profile_model.specs.Names.{begins_no_name as begins_no_name_told, is_name as is_name_told, parts_names as parts_names_told};

/// Whether a text can be a name in a profile: it is not empty, begins with no `#`, `!` or digit,
/// and has no white space, no other control byte and no colon.
#[tactic(auto, using(crate::proofs::NameLemmas::name_lemmas))]
pub fn is_name(text: &[u8]) -> bool
    ensures { result ≡ is_name_told text.now }
{
    match text.first() {
        Some(first) if begins_no_name(*first) => false,
        Some(_) => !holds_parting_byte(text),
        None => false,
    }
}

/// Whether no name begins with this byte: `#` and `!`, which begin other lines of a profile, and
/// digits.
fn begins_no_name(byte: u8) -> bool
    ensures { result ≡ begins_no_name_told byte }
{
    byte == b'#' || byte == b'!' || byte.is_ascii_digit()
}

/// Whether a text holds a byte that no name has. The loop has no branch, so that the compiler can
/// look at many bytes in one step.
fn holds_parting_byte(text: &[u8]) -> bool
    ensures { result ≡ list_any parts_names_told text.now }
{
    let mut held = false;
    for byte in text {
        held |= parts_names(*byte);
    }
    held
}

/// Whether no name has this byte: white space, other control bytes, DEL, and the colon that parts
/// names in a profile.
fn parts_names(byte: u8) -> bool
    ensures { result ≡ parts_names_told byte }
{
    byte <= b' ' || byte == 0x7f || byte == b':'
}
