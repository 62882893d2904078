//! Which texts are names.
ghost use Rattle.std.specs.Prelude.{◌≡◌};
ghost use Rattle.std.specs.List.{list_all};
ghost use Rattle.model_defs.specs.Naming.{is_name, is_name_byte};

/// Whether a byte is a letter a to z or A to Z, a digit, or `_`.
fn is_name_byte(byte: u8) -> bool
    ensures { result ≡ is_name_byte byte }
{
    (byte >= 97 && byte <= 122)
        || (byte >= 65 && byte <= 90)
        || (byte >= 48 && byte <= 57)
        || byte == 95
}

/// Whether all bytes may stand in a name.
fn are_name_bytes(bytes: &[u8]) -> bool
    ensures { result ≡ list_all is_name_byte bytes.now }
{
    for byte in bytes {
        if !is_name_byte(*byte) {
            return false;
        }
    }
    true
}

/// Whether a text is a name: 1 to 64 letters, digits and `_`.
pub fn is_name(text: &str) -> bool
    ensures { result ≡ is_name text.now }
{
    let bytes = text.as_bytes();
    bytes.len() >= 1 && bytes.len() <= 64 && are_name_bytes(bytes)
}
