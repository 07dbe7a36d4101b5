//! The laws of what sections mean. Each function does nothing: what it ensures holds of all sections.

ghost use Rattle.std.specs.Prelude.{◌≡◌, ℕ, All, List};
ghost use Rattle.snap_graph.specs.declared.value.Property.{Property};
ghost use Rattle.snap_graph.specs.declared.value.Value.{Value};
ghost use Rattle.spec_sections.specs.Global.{global_section};
ghost use Rattle.spec_sections.specs.Properties.{DenotesGlobal};
ghost use Rattle.spec_sections.specs.Texts.{HasText};

/// A section of the global object tells the number of its shape and the values, in order: sections
/// of other numbers or other values are other bytes. So what is written can be read as what was
/// given, and only as that.
pub fn one_global()
    ensures { (strings : List (List ℕ)) (shape other_shape : ℕ) (values other_values : List Value)
        → All (HasText strings) values → All (HasText strings) other_values
        → global_section strings shape values ≡ global_section strings other_shape other_values
        → (shape ≡ other_shape) × (values ≡ other_values) }
{}

/// A section denotes one list of properties at most: keys and values, in order.
pub fn one_property_list()
    ensures { (strings : List (List ℕ)) (shapes : List (ℕ × ℕ)) (section : List ℕ) (one other : List Property)
        → DenotesGlobal strings shapes section one → DenotesGlobal strings shapes section other → one ≡ other }
{}
