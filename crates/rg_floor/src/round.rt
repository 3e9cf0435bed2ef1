//! What one run is about.

ghost use Rattle.std.specs.Prelude.{ℕ, List, [], true};
ghost use Rattle.rg_tree.specs.Trees.{truth};
ghost use Rattle.rg_tree.specs.Traces.{State};
ghost use Rattle.rg_tree.specs.Statements.{ProgramTree};
ghost use Rattle.rg_code.specs.Code.{BlockTree};

use std::marker::Brand;
use std::sync::ledger::Ledger;

/// The name of one run, for types: its ledger, whose parts are the program's, and beside it the program, the code, the values of the
/// words at the start, and how many steps parts may make.
///
/// A caller runs at `Brand`, and says at its call what each member is.
pub trait Round: Ledger {
    ghost program: { ProgramTree };

    ghost code: { List (List BlockTree) };

    ghost start: { State };

    ghost limit: { ℕ };
}

impl Round for Brand {
    ghost program = { record { words = []; spec = record { pre = truth true; rely = truth true; guar = truth true; post = truth true }; parts = [] } };

    ghost code = { [] };

    ghost start = { [] };

    ghost limit = { 0 };
}
