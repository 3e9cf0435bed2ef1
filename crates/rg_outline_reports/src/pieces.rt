//! The pieces of an outline's derivation, each of which a file can hold.

ghost use Rattle.std.specs.Prelude.{◌≡◌, ◌∷◌, [], map, IfOk};
ghost use Rattle.std.specs.List.{concat};
ghost use Rattle.rg_outline_reports.specs.Cut.{ArePiecesOf};

use crate::files::OutlineFiles;
use rg_words::limits::MOST_TEXT_BYTES;
use std::alloc::{AllocError, Global};

/// The pieces into which bytes are cut at these places. A place before the last cut, or past the end, cuts off nothing. An error comes only where memory is
/// refused.
pub fn cut<'a>(
    alloc: Global,
    bytes: &'a [u8],
    places: &[usize],
) -> Result<Vec<&'a [u8]>, AllocError>
    // One after another they are the bytes.
    ensures { IfOk result (λ v. concat (map (λ piece. piece.now) v.items) ≡ bytes.now) }
{
    let mut pieces = Vec::new(alloc);
    let mut rest = bytes;
    for place in places {
        let done = bytes.len().saturating_sub(rest.len());
        let (piece, after) = rest.split_at(place.saturating_sub(done).min(rest.len()));
        pieces.push(piece)?;
        rest = after;
    }
    pieces.push(rest)?;
    Ok(pieces)
}

/// Bytes that aren't cut.
fn whole(alloc: Global, bytes: &[u8]) -> Result<Vec<&[u8]>, AllocError>
    ensures { IfOk result (λ v. map (λ piece. piece.now) v.items ≡ bytes.now ∷ []) }
{
    let mut pieces = Vec::new(alloc);
    pieces.push(bytes)?;
    Ok(pieces)
}

/// The pieces of an outline's derivation: one, where it is no longer than a file may be. An error comes only where memory is refused.
pub fn pieces_of(alloc: Global, files: &OutlineFiles) -> Result<Vec<&[u8]>, AllocError>
    ensures { IfOk result (λ v. ArePiecesOf files.now.derivation.items (map (λ piece. piece.now) v.items)) }
{
    if files.derivation.len() <= MOST_TEXT_BYTES {
        return whole(alloc, &files.derivation);
    }
    cut(alloc, &files.derivation, &files.cuts)
}
