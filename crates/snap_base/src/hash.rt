//! The hash of a text under a seed.

ghost use Rattle.std.specs.Prelude.{◌≡◌};
ghost use Rattle.snap_base.specs.Hash.{hash_of, mixed};

/// The hash of a text, given by its code units, under a seed. Tables of properties and of shared strings
/// are laid out by it.
pub fn hash_units(seed: u64, units: &[u16]) -> u64
    ensures { result ≡ hash_of seed units.now }
{
    let mut hash = seed;
    for unit in units {
        hash = mix(hash, *unit);
    }
    hash ^ (hash >> 32)
}

fn mix(hash: u64, unit: u16) -> u64
    ensures { result ≡ mixed hash unit }
{
    (hash ^ u64::from(unit)).wrapping_mul(0x100_0000_01B3)
}
