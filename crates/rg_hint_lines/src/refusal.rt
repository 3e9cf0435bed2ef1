//! Refusals at lines of a proofs file.

ghost use Rattle.std.specs.Prelude.{◌≡◌};
ghost use Rattle.rg_words.specs.declared.refusal.SourceFile.TheVariants.{Proofs};
ghost use Rattle.rg_words.specs.Refusals.{refused_at};

use rg_words::{Place, Refusal, RefusalNumber, SourceFile};

/// A refusal at a line of the proofs.
pub fn refusal_at(number: RefusalNumber, line: u64) -> Refusal
    ensures { result ≡ refused_at number Proofs line }
{
    Refusal {
        number,
        file: Some(SourceFile::Proofs),
        place: Some(Place::Line(line)),
    }
}
