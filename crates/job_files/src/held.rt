//! Texts that the caller holds.
ghost use Rattle.std.specs.Prelude.{◌≡◌};
ghost use Rattle.std.specs.Option.{option_map};
ghost use Rattle.job_files.specs.Held.{held_text};

/// The text of a file that was read before.
#[derive(Clone, Copy)]
pub struct HeldText<'a> {
    pub name: &'a str,
    pub text: &'a [u8],
}

/// The text that is held under a name: the first one of this name.
pub fn held_text<'a>(held: &[HeldText<'a>], name: &str) -> Option<&'a [u8]>
    ensures { option_map (λ t. t.now) result ≡ held_text held.now name.now }
{
    for h in held {
        if h.name == name {
            return Some(h.text);
        }
    }
    None
}
