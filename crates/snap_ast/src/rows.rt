//! Worked trees. Each function does nothing.

ghost use Rattle.std.specs.Prelude.{[], ◌∷◌, codes, true};
ghost use Rattle.snap_ast.specs.Lawful.{Lawful};
ghost use Rattle.snap_ast.specs.Worked.{IsUnlawful, binding_a, chain, tree_with};
ghost use Rattle.snap_ast.specs.declared.form.Form.TheVariants as f;
ghost use Rattle.snap_ast.specs.declared.operator.AssignOperator.TheVariants.{Plain};
ghost use Rattle.snap_ast.specs.declared.operator.BinaryOperator.TheVariants.{Mul};
ghost use Rattle.snap_ast.specs.declared.operator.UnaryOperator.TheVariants.{Delete};
ghost use Rattle.snap_ast.specs.declared.operator.UpdateOperator.TheVariants.{Increment};

/// Trees that are not lawful: a node that is below no other; children out of order; a child in two
/// places; a child without a node; a declaration as a body; a statement as an operand; a name and
/// an arrow left of an assignment; a name behind `delete`; two operands behind `++`; a reserved
/// word as a name; a number that is too large; no binding.
#[tactic(auto, unfolding(spec_tokens::specs::Word::is_reserved))]
pub fn worked_unlawful()
    ensures stray { IsUnlawful (f.Empty ∷ f.Empty ∷ []) (0 ∷ []) }
    ensures order { IsUnlawful (f.Expression 1 ∷ f.Binary Mul 3 2 ∷ f.Null ∷ f.Undefined ∷ []) (0 ∷ []) }
    ensures twice { IsUnlawful (f.Expression 1 ∷ f.Binary Mul 2 2 ∷ f.Null ∷ []) (0 ∷ []) }
    ensures missing { IsUnlawful (f.Expression 1 ∷ []) (0 ∷ []) }
    ensures body { IsUnlawful (f.While 1 2 ∷ f.Null ∷ f.Let (binding_a ∷ []) ∷ []) (0 ∷ []) }
    ensures statement { IsUnlawful (f.Expression 1 ∷ f.Empty ∷ []) (0 ∷ []) }
    ensures name { IsUnlawful (f.Expression 1 ∷ f.Assign 2 Plain 3 ∷ f.Name (codes "a") ∷ f.Null ∷ []) (0 ∷ []) }
    ensures arrow { IsUnlawful (f.Expression 1 ∷ f.Assign 2 Plain 4 ∷ f.ArrowValue [] 3 ∷ f.Null ∷ f.Null ∷ []) (0 ∷ []) }
    ensures deleted { IsUnlawful (f.Expression 1 ∷ f.Unary Delete 2 ∷ f.Name (codes "a") ∷ []) (0 ∷ []) }
    ensures operators { IsUnlawful (f.Expression 1 ∷ f.Update Increment true 2 ∷ f.Binary Mul 3 4 ∷ f.Null ∷ f.Null ∷ []) (0 ∷ []) }
    ensures reserved { IsUnlawful (f.Expression 1 ∷ f.Name (codes "if") ∷ []) (0 ∷ []) }
    ensures large { IsUnlawful (f.Expression 1 ∷ f.Number 9007199254740992 ∷ []) (0 ∷ []) }
    ensures bindings { IsUnlawful (f.Let [] ∷ []) (0 ∷ []) }
{}

/// A node may have 100 nodes round it: null behind 99 operators in a statement does, behind 100 it has 101.
pub fn worked_levels()
    ensures most { Lawful (tree_with (f.Expression 1 ∷ chain 99 1) (0 ∷ [])) }
    ensures more { IsUnlawful (f.Expression 1 ∷ chain 100 1) (0 ∷ []) }
{}
