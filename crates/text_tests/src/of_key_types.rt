use key_types::split;

/// LLVM's encoding of a base and a factor; the last has both in seven bits more.
const CASES: [(u32, u32, u32); 5] = [
    (1, 0, 1),
    (17, 0, 4),
    (192, 32, 1),
    (772, 2, 3),
    (0x0fff_bffe, 0xfff, 0xfff),
];

#[test]
fn discriminators_are_split(rt: HostRuntime) {
    for (disc, base, factor) in CASES {
        assert_eq!(rt; split(disc), (base, factor), "{disc}");
    }
}
