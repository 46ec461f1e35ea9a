use cfg_text::{Block, Bound, Edge, read};

const TEXT: &[u8] = b"# a loop\n\nfunc f\nblock 0 0x10 0x20\n\tblock 1  0x00 0x8 exit lo=2 hi=3\n\
    edge 0 1 never\nedge 1 1 hi=07\nend\nfunc f\nblock 0 0x1 0x2 exit ran\nend";

const BLOCKS: [Block; 2] = [
    Block {
        lo: 16,
        hi: 32,
        exit: false,
        bound: Bound {
            lower: 0,
            upper: None,
        },
    },
    Block {
        lo: 0,
        hi: 8,
        exit: true,
        bound: Bound {
            lower: 2,
            upper: Some(3),
        },
    },
];

const EDGES: [Edge; 2] = [
    Edge {
        from: 0,
        to: 1,
        bound: Bound {
            lower: 0,
            upper: Some(0),
        },
    },
    Edge {
        from: 1,
        to: 1,
        bound: Bound {
            lower: 0,
            upper: Some(7),
        },
    },
];

const RAN: [Block; 1] = [Block {
    lo: 1,
    hi: 2,
    exit: true,
    bound: Bound {
        lower: 1,
        upper: None,
    },
}];

#[test]
fn functions_are_those_that_the_text_spells(rt: HostRuntime) {
    let Ok(funs) = read(rt.alloc(), TEXT, 2) else {
        panic!(rt; "the text is refused");
    };
    let [first, second] = funs.as_slice() else {
        panic!(rt; "not two functions");
    };
    assert_eq!(rt; first.name, b"f".as_slice());
    assert_eq!(rt; first.blocks.as_slice(), BLOCKS.as_slice());
    assert_eq!(rt; first.edges.as_slice(), EDGES.as_slice());
    assert_eq!(rt; second.blocks.as_slice(), RAN.as_slice());
}
