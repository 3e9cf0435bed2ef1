//! Texts without faults.

ghost use Rattle.rg_parse.specs.Faultless.{FaultlessShow, FaultlessPrograms, FaultlessFormulas, FaultlessDerivations, FaultlessStarts, FaultlessMoves};

/// Bytes have no fault, of their tokens, their shape, their limits or their meaning, exactly where they spell a text that stands for
/// something. For what, `one_meaning`, `one_program`, `one_derivation` and `one_reading` say: for one thing.
pub fn faultless_texts_spell()
    ensures show { FaultlessShow }
    ensures program { FaultlessPrograms }
    ensures formula { FaultlessFormulas }
    ensures derivation { FaultlessDerivations }
    ensures start { FaultlessStarts }
    ensures moves { FaultlessMoves }
{}
