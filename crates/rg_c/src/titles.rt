//! Titles of headers, which the names of their functions begin with.

ghost use Rattle.std.specs.Prelude.{◌≡◌};
ghost use Rattle.rg_c.specs.Functions.{stands_in, has_role};

/// Whether a text stands somewhere in a name.
#[cycle(titles)]
fn stands_in(text: &[u8], name: &[u8]) -> bool
    ensures { result ≡ stands_in text.now name.now }
{
    match name {
        [] => false,
        [_, rest @ ..] => name.starts_with(text) || stands_in(text, rest),
    }
}

/// Whether a title has `_run`, `_round` or `_perform` in it, which could be taken for the name of a function.
pub fn has_role(title: &str) -> bool
    ensures { result ≡ has_role title.now }
{
    let name = title.as_bytes();
    stands_in(b"_run", name) || stands_in(b"_round", name) || stands_in(b"_perform", name)
}
