//! Worked sources, computed from the definitions. Each function does nothing.

ghost use Rattle.std.specs.Prelude.{◌≡◌, ◌++◌, ◌∷◌, [], true, false, codes, length, replicate, Some, None, Err};
ghost use Rattle.snap_ast.specs.declared.form.Form.TheVariants as f;
ghost use Rattle.snap_ast.specs.declared.operator.AssignOperator.TheVariants.{Plain};
ghost use Rattle.snap_ast.specs.declared.operator.BinaryOperator.TheVariants.{Add, Mul, Sub};
ghost use Rattle.snap_ast.specs.declared.operator.UpdateOperator.TheVariants.{Increment};
ghost use Rattle.snap_ast.specs.declared.part.ConstBinding.TheVariants.{One};
ghost use Rattle.snap_ast.specs.declared.part.PropertyKey.TheVariants.{Computed, Text, Word};
ghost use Rattle.spec_grammar.specs.Outcome.{Nested, Syntax};
ghost use Rattle.spec_grammar.specs.Source.{NoTree, read_tree};
ghost use Rattle.spec_grammar.specs.Worked.{Gives, Refuses, forms_of, places_of};

/// Operators: those of one level group to the left, and an update ends what it stands behind.
pub fn worked_operators()
    ensures left { Gives "a - b - c" (f.Expression 1 ∷ f.Binary Sub 2 5 ∷ f.Binary Sub 3 4 ∷ f.Name (codes "a") ∷ f.Name (codes "b") ∷ f.Name (codes "c") ∷ []) (0 ∷ []) }
    ensures tight { Gives "a + b * c" (f.Expression 1 ∷ f.Binary Add 2 3 ∷ f.Name (codes "a") ∷ f.Binary Mul 4 5 ∷ f.Name (codes "b") ∷ f.Name (codes "c") ∷ []) (0 ∷ []) }
    ensures update { Refuses "a++ ++" Syntax 4 }
    ensures deleted { Refuses "delete (a.b)" Syntax 12 }
    ensures call { Refuses "new new X()()" Syntax 4 }
{}

/// Parentheses make no node; what stands in them is no target, and they are part of the place of what begins with them.
pub fn worked_parentheses()
    ensures places { places_of (read_tree (codes "(a + b) * c")) ≡ 0 ∷ 0 ∷ 1 ∷ 1 ∷ 5 ∷ 10 ∷ [] }
    ensures target { Refuses "(a) = 1" Syntax 4 }
    ensures operand { Gives "a + (b) = c" (f.Expression 1 ∷ f.Assign 2 Plain 5 ∷ f.Binary Add 3 4 ∷ f.Name (codes "a") ∷ f.Name (codes "b") ∷ f.Name (codes "c") ∷ []) (0 ∷ []) }
    ensures many { forms_of (read_tree (replicate 200 40 ++ codes "a" ++ replicate 200 41)) ≡ f.Expression 1 ∷ f.Name (codes "a") ∷ [] }
{}

/// A node may have 100 nodes round it.
pub fn worked_levels()
    ensures most { length (forms_of (read_tree (replicate 99 33 ++ codes "a"))) ≡ 101 }
    ensures more { read_tree (replicate 100 33 ++ codes "a") ≡ Err (NoTree Nested 100) }
{}

/// Line ends and semicolons that are inserted.
pub fn worked_semicolons()
    ensures update { Gives "a\n++b" (f.Expression 1 ∷ f.Name (codes "a") ∷ f.Expression 3 ∷ f.UpdateName Increment true (record { name = codes "b"; at = 4 }) ∷ []) (0 ∷ 2 ∷ []) }
    ensures thrown { Refuses "throw\n1;" Syntax 6 }
    ensures returned { Gives "return\na" (f.Return None ∷ f.Expression 2 ∷ f.Name (codes "a") ∷ []) (0 ∷ 1 ∷ []) }
    ensures call { Gives "const f = function () { return 1 }\n(2)" (f.Const (One (record { name = codes "f"; at = 6 }) 1 ∷ []) ∷ f.Call 2 (5 ∷ []) ∷ f.FunctionValue [] (3 ∷ []) ∷ f.Return (Some 4) ∷ f.Number 1 ∷ f.Number 2 ∷ []) (0 ∷ []) }
    ensures arrow { Refuses "x => {} (1)" Syntax 8 }
    ensures head { Refuses "(x)\n=> x" Syntax 4 }
{}

/// Branches, loops and declarations.
pub fn worked_statements()
    ensures nearest { Gives "if (a) if (b) c; else d;" (f.If 1 2 ∷ f.Name (codes "a") ∷ f.IfElse 3 4 6 ∷ f.Name (codes "b") ∷ f.Expression 5 ∷ f.Name (codes "c") ∷ f.Expression 7 ∷ f.Name (codes "d") ∷ []) (0 ∷ []) }
    ensures of_name { Gives "for (let of of xs) ;" (f.ForOf false (record { name = codes "of"; at = 9 }) 1 2 ∷ f.Name (codes "xs") ∷ f.Empty ∷ []) (0 ∷ []) }
    ensures constant { Refuses "for (const x = 1;;) ;" Syntax 5 }
    ensures declared { Refuses "let 1;" Syntax 4 }
{}

/// Lists: a comma at the end makes no item, and none stands without an item before it.
pub fn worked_lists()
    ensures last { Gives "[a,]" (f.Expression 1 ∷ f.Array (2 ∷ []) ∷ f.Name (codes "a") ∷ []) (0 ∷ []) }
    ensures lone { Refuses "[,]" Syntax 1 }
    ensures names { Gives "(a, b,) => a" (f.Expression 1 ∷ f.ArrowValue (record { name = codes "a"; at = 1 } ∷ record { name = codes "b"; at = 4 } ∷ []) 2 ∷ f.Name (codes "a") ∷ []) (0 ∷ []) }
    ensures properties { Gives "({ a, 'b': c, [d]: e })" (f.Expression 1 ∷ f.Object (record { key = Word (codes "a"); value = 2 } ∷ record { key = Text (codes "b"); value = 3 } ∷ record { key = Computed 4; value = 5 } ∷ []) ∷ f.Name (codes "a") ∷ f.Name (codes "c") ∷ f.Name (codes "d") ∷ f.Name (codes "e") ∷ []) (0 ∷ []) }
{}
