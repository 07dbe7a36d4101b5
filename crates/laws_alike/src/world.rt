//! Later worlds, and what stays in common in them. The functions do nothing: what they ensure holds of all worlds.

ghost use Rattle.laws_alike.specs.Alike.{Grows, Lists, Maybe, Numbers, Same, Values, World};
ghost use Rattle.laws_alike.specs.Going.{Stays};

/// A type of which two have something in common in a world: what it means that states match, or that results agree.
pub trait Related {
    ghost common: { World → Self → Self → Type 0 };
}

/// Each world is a later one than itself, and one that is later than a later one is a later one.
pub fn worlds_grow_on()
    ensures itself { (world : World) → Grows world world }
    ensures onward { (world after last : World) → Grows world after → Grows after last → Grows world last }
{}

/// What is the same stays so in later worlds. Values that agree stay so, paired nodes stay paired, and lists and
/// options have in common what stays in common.
pub fn agreement_stays<A: Related>()
    ensures same { Stays (Same {A = A}) }
    ensures values { Stays Values }
    ensures numbers { Stays Numbers }
    ensures maybe { Stays A.common → Stays (Maybe A.common) }
    ensures lists { Stays A.common → Stays (Lists A.common) }
{}
