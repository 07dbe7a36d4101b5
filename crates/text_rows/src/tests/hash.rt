//! Hashes of texts.

use snap_base::hash_units;

/// Seeds, texts, and their hashes, which were computed by an independent program in another language, with wide
/// integers.
const HASHED: [(u64, &[u16], u64); 15] = [
    (0, &[], 0),
    (1, &[], 1),
    (u64::MAX, &[], 0xFFFF_FFFF_0000_0000),
    (1 << 32, &[], 0x1_0000_0001),
    (0, &[0x61], 0x6100_0000_C5D3),
    (0, &[0], 0),
    (0, &[0xFFFF], 0xFF_FF00_014D_014D),
    (0, &[0xD83D, 0xDE00], 0xDF21_4E02_AFEB_90C7),
    (1, &[0x61], 0x6000_0000_C320),
    (u64::MAX, &[0x61], 0xFFFF_9DFF_0000_C485),
    (0, &[0x61, 0x62], 0x149_8400_005E_5CC3),
    (0, &[0x62, 0x61], 0x14D_6D00_0056_F785),
    (
        0xCBF2_9CE4_8422_2325,
        &[0x67, 0x6C, 0x6F, 0x62, 0x61, 0x6C, 0x54, 0x68, 0x69, 0x73],
        0xAE8_68D8_0345_87CE,
    ),
    (
        42,
        &[
            0x63, 0x6F, 0x6E, 0x73, 0x74, 0x72, 0x75, 0x63, 0x74, 0x6F, 0x72,
        ],
        0x6F3F_624F_D281_1CBD,
    ),
    (
        0,
        &[0x5F, 0x5F, 0x70, 0x72, 0x6F, 0x74, 0x6F, 0x5F, 0x5F],
        0xCFC3_CF66_B2EF_19C4,
    ),
];

/// The first text whose hash is another.
fn first_mishashed() -> Option<usize> {
    for (row, (seed, units, hash)) in HASHED.iter().enumerate() {
        if hash_units(*seed, units) != *hash {
            return Some(row);
        }
    }
    None
}

#[test]
fn hashes_texts(rt: HostRuntime) {
    assert_eq!(rt; first_mishashed(), None);
}
