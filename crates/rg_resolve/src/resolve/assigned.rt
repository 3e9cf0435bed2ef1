//! Assignments: a target, and a value of its width.

ghost use Rattle.std.specs.Prelude.{◌≡◌, [], map, IsTrue, IfOk, IfErr};
ghost use Rattle.std.specs.List.{flat_map};
ghost use Rattle.rg_tree.specs.ConditionTrees.{assignment};
ghost use Rattle.rg_syntax.specs.Written.{assigned};
ghost use Rattle.rg_resolve.specs.Faults.{IsRefusal};
ghost use Rattle.rg_resolve.specs.Programs.{assigned_faults};
ghost use Rattle.rg_resolve.specs.Inner.ProgramTrees.{assignment_tree};

use super::formula::expression_tree;
use rg_leaves::group::Group;
use rg_leaves::scope::Scope;
use rg_leaves::target::target;
use rg_syntax::written::AssignmentText;
use rg_tree::condition::Assign;
use rg_words::Refusal;

/// The tree of an assignment.
pub fn assignment_of(scope: &Scope, a: &AssignmentText) -> Result<Assign, Refusal>
    requires { IsTrue scope.now.one_state }
    ensures tree { IfOk result (λ t. assignment t ≡ assignment_tree scope.now.layout.now (assigned scope.now.source.now a.now)) }
    ensures faultless { IfOk result (λ _. assigned_faults scope.now.layout.now (assigned scope.now.source.now a.now) ≡ []) }
    ensures fault { IfErr result (λ refusal. IsRefusal scope.now.file (assigned_faults scope.now.layout.now (assigned scope.now.source.now a.now)) refusal) }
{
    let word = target(scope, &a.target)?;
    let group = Group::Width(scope.layout.width(word));
    let value = expression_tree(scope, group, &a.value)?;
    Ok(Assign { word, value })
}

/// The trees of assignments, in order.
pub fn assignments_of(scope: &Scope, written: &[AssignmentText]) -> Result<Vec<Assign>, Refusal>
    requires { IsTrue scope.now.one_state }
    ensures trees { IfOk result (λ ts. map assignment ts.items ≡ map (assignment_tree scope.now.layout.now) (map (assigned scope.now.source.now) written.now)) }
    ensures faultless { IfOk result (λ _. flat_map (assigned_faults scope.now.layout.now) (map (assigned scope.now.source.now) written.now) ≡ []) }
    ensures fault { IfErr result (λ refusal. IsRefusal scope.now.file
        (flat_map (assigned_faults scope.now.layout.now) (map (assigned scope.now.source.now) written.now)) refusal) }
{
    let mut assignments = Vec::new(scope.alloc);
    for one in written {
        assignments.push(assignment_of(scope, one)?)?;
    }
    Ok(assignments)
}
