//! Each operation of matching heaps goes alike. The functions do nothing: what they ensure holds of all worlds.

ghost use Rattle.std.specs.Prelude.{ℕ, List};
ghost use Rattle.snap_graph.specs.declared.kind.Kind.{Kind};
ghost use Rattle.snap_graph.specs.declared.kind.ScopeKind.{ScopeKind};
ghost use Rattle.snap_graph.specs.declared.value.Value.{Value};
ghost use Rattle.spec_values.specs.Access.{entries_at, reached};
ghost use Rattle.spec_values.specs.Answer.{use_key};
ghost use Rattle.spec_values.specs.Operations.{add_element, add_elements, close, count_at, element_at, freeze, frozen_at, kind_at, make, make_function, make_scope, own_at, own_keys_at, pop_element, prototype_at, push_element, put_own, remove_own, set_element, write_own};
ghost use Rattle.laws_alike.specs.Alike.{Alike, Lists, Maybe, Numbers, Same, Values, World};
ghost use Rattle.laws_alike.specs.Going.{GoAlike};

/// Looks at paired nodes see the same kind, own keys in the same order, as many elements and entries, and the same
/// mark of a frozen node. Their prototypes, what they hold and their elements agree, and the nodes along their
/// prototypes are paired one by one.
pub fn looks_go_alike()
    ensures kind { (world : World) (number other : ℕ) → Numbers world number other → GoAlike Alike Same world (kind_at number) (kind_at other) }
    ensures prototype { (world : World) (number other : ℕ) → Numbers world number other
        → GoAlike Alike (Maybe Values) world (prototype_at number) (prototype_at other) }
    ensures own { (world : World) (number other : ℕ) (key : List ℕ) → Numbers world number other
        → GoAlike Alike (Maybe Values) world (own_at number key) (own_at other key) }
    ensures own_keys { (world : World) (number other : ℕ) → Numbers world number other
        → GoAlike Alike Same world (own_keys_at number) (own_keys_at other) }
    ensures count { (world : World) (number other : ℕ) → Numbers world number other → GoAlike Alike Same world (count_at number) (count_at other) }
    ensures element { (world : World) (number other place : ℕ) → Numbers world number other
        → GoAlike Alike (Maybe Values) world (element_at number place) (element_at other place) }
    ensures frozen { (world : World) (number other : ℕ) → Numbers world number other → GoAlike Alike Same world (frozen_at number) (frozen_at other) }
    ensures entries { (world : World) (prototype other_prototype number other : ℕ)
        → Numbers world prototype other_prototype → Numbers world number other
        → GoAlike Alike Same world (entries_at prototype number) (entries_at other_prototype other) }
    ensures reached { (world : World) (number other : ℕ) → Numbers world number other
        → GoAlike Alike (Lists Numbers) world (reached number) (reached other) }
{}

/// Changes of paired nodes, with values that agree, go alike: they are made on both sides, or on neither, and the
/// heaps match again. An element that was taken agrees with the other.
pub fn changes_go_alike()
    ensures put { (world : World) (number other : ℕ) (key : List ℕ) (value next : Value) → Numbers world number other → Values world value next
        → GoAlike Alike Same world (put_own number key value) (put_own other key next) }
    ensures write { (world : World) (number other : ℕ) (key : List ℕ) (value next : Value) → Numbers world number other → Values world value next
        → GoAlike Alike Same world (write_own number key value) (write_own other key next) }
    ensures remove { (world : World) (number other : ℕ) (key : List ℕ) → Numbers world number other
        → GoAlike Alike Same world (remove_own number key) (remove_own other key) }
    ensures push { (world : World) (number other : ℕ) (value next : Value) → Numbers world number other → Values world value next
        → GoAlike Alike Same world (push_element number value) (push_element other next) }
    ensures add { (world : World) (number other : ℕ) (value next : Value) → Numbers world number other → Values world value next
        → GoAlike Alike Same world (add_element number value) (add_element other next) }
    ensures add_all { (world : World) (number other : ℕ) (values others : List Value) → Numbers world number other → Lists Values world values others
        → GoAlike Alike Same world (add_elements number values) (add_elements other others) }
    ensures set { (world : World) (number other place : ℕ) (value next : Value) → Numbers world number other → Values world value next
        → GoAlike Alike Same world (set_element number place value) (set_element other place next) }
    ensures pop { (world : World) (number other : ℕ) → Numbers world number other
        → GoAlike Alike (Maybe Values) world (pop_element number) (pop_element other) }
    ensures freeze { (world : World) (number other : ℕ) → Numbers world number other → GoAlike Alike Same world (freeze number) (freeze other) }
    ensures close { (world : World) (number other : ℕ) → Numbers world number other → GoAlike Alike Same world (close number) (close other) }
{}

/// Nodes that are made on both sides, of one kind and with prototypes that agree, are paired in a later world. So
/// are functions that close over values that agree, and scopes with slots that do. A key is used on both sides.
pub fn making_goes_alike()
    ensures make { (world : World) (kind : Kind) (prototype other : Value) → Values world prototype other
        → GoAlike Alike Numbers world (make kind prototype) (make kind other) }
    ensures function { (world : World) (script tree : ℕ) (scope other : Value) → Values world scope other
        → GoAlike Alike Numbers world (make_function script tree scope) (make_function script tree other) }
    ensures scope { (world : World) (kind : ScopeKind) (outer other : Value) (slots others : List Value)
        → Values world outer other → Lists Values world slots others
        → GoAlike Alike Numbers world (make_scope kind outer slots) (make_scope kind other others) }
    ensures key { (world : World) (key : List ℕ) → GoAlike Alike Same world (use_key key) (use_key key) }
{}
