//! Worked trees, computed from the definitions. Each function does nothing.

ghost use Rattle.std.specs.Prelude.{◌≡◌, ◌∷◌, [], true, false, codes, None, Some};
ghost use Rattle.snap_ast.specs.declared.form.Form.TheVariants as f;
ghost use Rattle.snap_ast.specs.declared.operator.AssignOperator.TheVariants.{Plain};
ghost use Rattle.snap_ast.specs.declared.operator.UpdateOperator.TheVariants.{Increment};
ghost use Rattle.snap_ast.specs.declared.part.ConstBinding.TheVariants.{One, Pattern};
ghost use Rattle.snap_graph.specs.declared.kind.ScopeKind.TheVariants as kind;
ghost use Rattle.spec_scopes.specs.EarlyErrors.{is_stray};
ghost use Rattle.spec_scopes.specs.Names.{constant, variable};
ghost use Rattle.spec_scopes.specs.Round.{in_function, in_loop};
ghost use Rattle.spec_scopes.specs.Scopes.{made, names_apart};
ghost use Rattle.spec_scopes.specs.Slots.{place_of};
ghost use Rattle.spec_scopes.specs.Told.{early_error, round_of};
ghost use Rattle.spec_scopes.specs.Worked.{chain_at, let_of, named, nodes_of, place, places_at, round, scope, slot, tree};
ghost use Rattle.spec_scopes.specs.declared.fault.ScopeFault.TheVariants as fault;

/// `let a; { const { b, c } = a; }`: the value stands in the block's scope, the block itself does not.
pub fn worked_block()
    ensures { let script = scope kind.Script (slot "a" false ∷ []) in
        let block = scope kind.Block (slot "b" true ∷ slot "c" true ∷ []) in
        let it = tree (f.Let (record { name = named "a" 4; value = None } ∷ []) ∷ f.Block (2 ∷ []) ∷ f.Const (Pattern (named "b" 17 ∷ named "c" 20 ∷ []) 3 ∷ []) ∷ f.Name (codes "a") ∷ []) (0 ∷ 1 ∷ []) in
        (chain_at it 3 (2 ∷ 1 ∷ []) ≡ block ∷ script ∷ [])
        × (chain_at it 1 [] ≡ script ∷ [])
        × (place_of (chain_at it 3 (2 ∷ 1 ∷ [])) (codes "c") ≡ Some (record { hops = 0; slot = 1; constant = true }))
        × (place_of (chain_at it 3 (2 ∷ 1 ∷ [])) (codes "a") ≡ Some (record { hops = 1; slot = 0; constant = false }))
        × (place_of (chain_at it 3 (2 ∷ 1 ∷ [])) (codes "d") ≡ None)
        × (places_at it 0 [] ≡ place 0 0 false ∷ [])
        × (places_at it 1 [] ≡ [])
        × (places_at it 2 (1 ∷ []) ≡ place 0 0 true ∷ place 0 1 true ∷ [])
        × (places_at it 3 (2 ∷ 1 ∷ []) ≡ place 1 0 false ∷ []) }
{}

/// `for (const x of y) { () => { return x; } }`: what is gone through and the body stand in the loop's scope;
/// the block and the arrow have no names and make no scope; a jump in the arrow is in no loop.
pub fn worked_loop()
    ensures { let script = scope kind.Script [] in
        let head = scope kind.Loop (slot "x" true ∷ []) in
        let it = tree (f.ForOf true (named "x" 11) 1 2 ∷ f.Name (codes "y") ∷ f.Block (3 ∷ []) ∷ f.Expression 4 ∷ f.ArrowBody [] (5 ∷ []) ∷ f.Return (Some 6) ∷ f.Name (codes "x") ∷ []) (0 ∷ []) in
        (chain_at it 1 (0 ∷ []) ≡ head ∷ script ∷ [])
        × (chain_at it 6 (5 ∷ 4 ∷ 3 ∷ 2 ∷ 0 ∷ []) ≡ head ∷ script ∷ [])
        × (places_at it 0 [] ≡ [])
        × (places_at it 1 (0 ∷ []) ≡ None ∷ [])
        × (places_at it 6 (5 ∷ 4 ∷ 3 ∷ 2 ∷ 0 ∷ []) ≡ place 0 0 true ∷ [])
        × (in_loop (round it 3 (2 ∷ 0 ∷ [])) ≡ true)
        × (in_loop (round it 5 (4 ∷ 3 ∷ 2 ∷ 0 ∷ [])) ≡ false)
        × (is_stray (f.Return None) (round it 5 (4 ∷ 3 ∷ 2 ∷ 0 ∷ [])) ≡ false)
        × (is_stray f.Break (round it 5 (4 ∷ 3 ∷ 2 ∷ 0 ∷ [])) ≡ true)
        × (in_function (round it 3 (2 ∷ 0 ∷ [])) ≡ false) }
{}

/// `try { a; } catch (e) { let b; } finally { c; }`: the handler's block alone stands in the scope of the catch.
pub fn worked_catch()
    ensures { let script = scope kind.Script [] in
        let caught = scope kind.Catch (slot "e" false ∷ []) in
        let forms = f.TryCatchName 1 (named "e" 18) 4 (Some 6) ∷ f.Block (2 ∷ []) ∷ f.Expression 3 ∷ f.Name (codes "a") ∷ f.Block (5 ∷ []) ∷ f.Let (record { name = named "b" 28; value = None } ∷ []) ∷ f.Block (7 ∷ []) ∷ f.Expression 8 ∷ f.Name (codes "c") ∷ [] in
        let it = tree forms (0 ∷ []) in
        (chain_at it 1 (0 ∷ []) ≡ script ∷ [])
        × (chain_at it 4 (0 ∷ []) ≡ caught ∷ script ∷ [])
        × (chain_at it 6 (0 ∷ []) ≡ script ∷ [])
        × (chain_at it 5 (4 ∷ 0 ∷ []) ≡ scope kind.Block (slot "b" false ∷ []) ∷ caught ∷ script ∷ [])
        × (names_apart (nodes_of forms) (f.TryCatchName 1 (named "e" 18) 4 (Some 6)) ≡ variable (named "e" 18) ∷ variable (named "b" 28) ∷ []) }
{}

/// `function f(p) { const q = p; }`: the name stands in the scope round the function, and the function's own scope
/// holds its parameters and then the names at the top of its body.
pub fn worked_function()
    ensures { let forms = f.Function (named "f" 9) (named "p" 11 ∷ []) (1 ∷ []) ∷ f.Const (One (named "q" 22) 2 ∷ []) ∷ f.Name (codes "p") ∷ [] in
        let it = tree forms (0 ∷ []) in
        (chain_at it 2 (1 ∷ 0 ∷ []) ≡ scope kind.Function (slot "p" false ∷ slot "q" true ∷ []) ∷ scope kind.Script (slot "f" false ∷ []) ∷ [])
        × (chain_at it 0 [] ≡ scope kind.Script (slot "f" false ∷ []) ∷ [])
        × (places_at it 0 [] ≡ place 0 0 false ∷ [])
        × (places_at it 1 (0 ∷ []) ≡ place 0 1 true ∷ [])
        × (places_at it 2 (1 ∷ 0 ∷ []) ≡ place 0 0 false ∷ [])
        × (names_apart (nodes_of forms) (f.Function (named "f" 9) (named "p" 11 ∷ []) (1 ∷ [])) ≡ variable (named "p" 11) ∷ constant (named "q" 22) ∷ [])
        × (made (nodes_of forms) (f.ArrowValue [] 2) ≡ None) }
{}

/// `let a; { a = b; a++; let c, a; }`: the `a` that is written in the block is the block's own, which is declared behind
/// it; `b` is a global.
pub fn worked_writes()
    ensures { let forms = let_of (named "a" 4 ∷ []) ∷ f.Block (2 ∷ 5 ∷ 7 ∷ []) ∷ f.Expression 3 ∷ f.AssignName (named "a" 9) Plain 4 ∷ f.Name (codes "b") ∷ f.Expression 6 ∷ f.UpdateName Increment false (named "a" 16) ∷ let_of (named "c" 25 ∷ named "a" 28 ∷ []) ∷ [] in
        let it = tree forms (0 ∷ 1 ∷ []) in
        (places_at it 3 (2 ∷ 1 ∷ []) ≡ place 0 1 false ∷ [])
        × (places_at it 4 (3 ∷ 2 ∷ 1 ∷ []) ≡ None ∷ [])
        × (places_at it 6 (5 ∷ 1 ∷ []) ≡ place 0 1 false ∷ [])
        × (places_at it 7 (1 ∷ []) ≡ place 0 0 false ∷ place 0 1 false ∷ [])
        × (places_at it 0 [] ≡ place 0 0 false ∷ []) }
{}

/// Of several early errors one is told. The names of the script come first: of `break; let a; let a;` the name.
/// Then the nodes come by number: of `break; { let b; let b; }` the jump, of `{ let b; let b; break; }` the name.
/// Of names the first that repeats is told: `{ let a, b; let b, a; }`. A jump in a loop is no error: `while (a) break;`.
#[tactic(auto, unfolding(crate::specs::Told::early_error))]
pub fn worked_told()
    ensures { let jump_inside = tree (f.Block (1 ∷ 2 ∷ 3 ∷ []) ∷ let_of (named "b" 6 ∷ []) ∷ let_of (named "b" 13 ∷ []) ∷ f.Break ∷ []) (0 ∷ []) in
        (early_error (tree (f.Break ∷ let_of (named "a" 11 ∷ []) ∷ let_of (named "a" 18 ∷ []) ∷ []) (0 ∷ 1 ∷ 2 ∷ [])) ≡ Some (fault.Duplicate 18))
        × (early_error (tree (f.Break ∷ f.Block (2 ∷ 3 ∷ []) ∷ let_of (named "b" 13 ∷ []) ∷ let_of (named "b" 20 ∷ []) ∷ []) (0 ∷ 1 ∷ [])) ≡ Some (fault.StrayJump 0))
        × (early_error jump_inside ≡ Some (fault.Duplicate 13))
        × (early_error (tree (f.Block (1 ∷ 2 ∷ []) ∷ let_of (named "a" 6 ∷ named "b" 9 ∷ []) ∷ let_of (named "b" 16 ∷ named "a" 19 ∷ []) ∷ []) (0 ∷ [])) ≡ Some (fault.Duplicate 16))
        × (early_error (tree (f.While 1 2 ∷ f.Name (codes "a") ∷ f.Break ∷ []) (0 ∷ [])) ≡ None)
        × (round_of jump_inside 3 ≡ round jump_inside 3 (0 ∷ [])) }
{}
