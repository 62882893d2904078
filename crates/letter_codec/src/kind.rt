//! The kinds of letters.
ghost use Rattle.std.specs.Prelude.{◌≡◌, IfSome, IfNone};
ghost use Rattle.letter_codec.specs.Kinds.{kind_byte, kind_name};

/// What a letter is for. Registering, asking, telling, wanting and offering have words alone; `Nums` has numbers for
/// each index, and `Rows` has rows with columns and numbers.
#[derive(Clone, Copy, Debug, PartialEq, Eq, Drop)]
pub enum Kind {
    Reg,
    Ask,
    Tell,
    Want,
    Offer,
    Nums,
    Rows,
}

impl Kind {
    /// The name that is printed.
    pub fn name(self) -> &'static str
        ensures { result.now ≡ kind_name self }
    {
        match self {
            Kind::Reg => "REG",
            Kind::Ask => "ASK",
            Kind::Tell => "TELL",
            Kind::Want => "WANT",
            Kind::Offer => "OFFER",
            Kind::Nums => "DATA",
            Kind::Rows => "ROWS",
        }
    }

    /// The first byte of its letters.
    #[inline]
    pub(crate) fn byte(self) -> u8
        ensures { result ≡ kind_byte self }
    {
        match self {
            Kind::Reg => 17,
            Kind::Ask => 18,
            Kind::Tell => 19,
            Kind::Want => 20,
            Kind::Offer => 21,
            Kind::Nums => 22,
            Kind::Rows => 23,
        }
    }

    /// The kind whose letters begin with this byte.
    #[inline]
    pub(crate) fn of_byte(byte: u8) -> Option<Kind>
        ensures some { IfSome result (λ kind. byte ≡ kind_byte kind) }
        ensures none { IfNone result ((kind : Kind) → byte ≡ kind_byte kind → ⊥) }
    {
        match byte {
            17 => Some(Kind::Reg),
            18 => Some(Kind::Ask),
            19 => Some(Kind::Tell),
            20 => Some(Kind::Want),
            21 => Some(Kind::Offer),
            22 => Some(Kind::Nums),
            23 => Some(Kind::Rows),
            _ => None,
        }
    }
}
