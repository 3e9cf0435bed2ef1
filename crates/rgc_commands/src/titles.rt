//! Names under which headers of C are printed.

ghost use Rattle.std.specs.Prelude.{◌≡◌, ◌&&◌, not, IfOk};
ghost use Rattle.std.specs.List.{list_all};
ghost use Rattle.rg_words.specs.Names.{is_word_byte, is_word};
ghost use Rattle.rgc_commands.specs.Titles.{is_free, is_title};

use rg_c::titles::has_role;
use rg_c_values::names::push_c_name;
use rg_words::names::{is_word_byte, is_word_start};
use std::alloc::{AllocError, Global};

/// Whether a name may go on with all of these bytes.
fn all_word_bytes(bytes: &[u8]) -> bool
    ensures { result ≡ list_all is_word_byte bytes.now }
{
    bytes.iter().all(|byte| is_word_byte(*byte))
}

/// Whether the text is a letter or `_`, and then letters, digits and `_`.
fn is_word(text: &str) -> bool
    ensures { result ≡ is_word text.now }
{
    match text.as_bytes() {
        [first, rest @ ..] => is_word_start(*first) && all_word_bytes(rest),
        [] => false,
    }
}

/// Whether C and its headers have no use for a name.
fn is_free(alloc: Global, name: &str) -> Result<bool, AllocError>
    ensures { IfOk result (λ r. r ≡ is_free name.now) }
{
    let mut written = String::new(alloc);
    push_c_name(&mut written, name)?;
    Ok(written.as_str() == name)
}

/// Whether a header of C may be printed under a name: a letter, and then letters, digits and `_`, nothing that C or its headers have a use for, and without
/// `_run`, `_round` and `_perform`, which stand in the names of its functions.
///
/// An error comes only where memory was refused.
pub fn is_title(alloc: Global, name: &str) -> Result<bool, AllocError>
    ensures { IfOk result (λ r. r ≡ is_title name.now) }
{
    Ok(is_word(name) && !has_role(name) && is_free(alloc, name)?)
}
