//! What a kind of token begins or goes on with, wherever it stands.

ghost use Rattle.std.specs.Prelude.{◌≡◌};
ghost use Rattle.rg_shape.specs.Inner.Machine.{is_opener, is_join, begins_word, begins_part, begins_line, is_semicolon};

use rg_text::kind::{Keyword, Kind, Terminal};

/// Whether the token opens what ends only with its operands.
pub fn is_opener(kind: Kind) -> bool
    ensures { result ≡ is_opener kind }
{
    matches!(
        kind,
        Kind::Fixed(
            Terminal::Open
                | Terminal::Not
                | Terminal::Inv
                | Terminal::If
                | Terminal::Section(Keyword::While)
        )
    )
}

/// Whether the token begins the declaration of a word.
pub fn begins_word(kind: Kind) -> bool
    ensures { result ≡ begins_word kind }
{
    matches!(
        kind,
        Kind::Name | Kind::Fixed(Terminal::Section(Keyword::Fixed))
    )
}

/// Whether the token begins a part.
pub fn begins_part(kind: Kind) -> bool
    ensures { result ≡ begins_part kind }
{
    matches!(kind, Kind::Fixed(Terminal::Section(Keyword::Part)))
}

/// Whether the token begins a line of a derivation.
pub fn begins_line(kind: Kind) -> bool
    ensures { result ≡ begins_line kind }
{
    matches!(kind, Kind::Fixed(Terminal::Section(Keyword::Line)))
}

/// Whether another item of a block or of an `await` follows.
pub fn is_semicolon(kind: Kind) -> bool
    ensures { result ≡ is_semicolon kind }
{
    matches!(kind, Kind::Fixed(Terminal::Semicolon))
}

/// Whether the token goes on with a chain.
pub fn is_join(kind: Kind) -> bool
    ensures { result ≡ is_join kind }
{
    matches!(kind, Kind::Fixed(Terminal::Join(_)))
}
