// The kinds of bytes that words are made of.
ghost use Rattle.std.specs.Prelude.{◌≡◌};
ghost use Rattle.std.specs.List.{list_all, prefix_len};
ghost use Rattle.words.specs.Bytes.{is_kind};

#[derive(Clone, Copy, PartialEq, Eq, Debug)]
pub enum Kind {
    Blank,
    Solid,
    Decimal,
    Hexadecimal,
    Bit,
}

impl Kind {
    // One match, and no closure for each kind: contracts name a kind, and one clause holds of all five.
    fn has(self, b: u8) -> bool
        ensures { result ≡ is_kind self b }
    {
        match self {
            Kind::Blank => matches!(b, b' ' | b'\t' | b'\r'),
            Kind::Solid => !matches!(b, b' ' | b'\t' | b'\r'),
            Kind::Decimal => matches!(b, b'0'..=b'9'),
            Kind::Hexadecimal => matches!(b, b'0'..=b'9' | b'a'..=b'f' | b'A'..=b'F'),
            Kind::Bit => matches!(b, b'0' | b'1'),
        }
    }

    // How many bytes at the front are of this kind.
    pub fn front(self, bytes: &[u8]) -> usize
        ensures { result ≡ prefix_len (is_kind self) bytes.now }
    {
        bytes.iter().take_while(|b| self.has(**b)).count()
    }

    // Are all bytes of this kind.
    pub fn all(self, bytes: &[u8]) -> bool
        ensures { result ≡ list_all (is_kind self) bytes.now }
    {
        bytes.iter().all(|b| self.has(*b))
    }
}
