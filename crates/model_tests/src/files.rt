// Accepted files, and what is to be read from them: each edge and atom, and nothing past the end in any argument.
use crate::model::Model;
use machines::comparison::Comparison::{Above, AtLeast, AtMost, Below};
use machines::machine::Summary;

// Three edges leave location 0, none leaves 1, and two leave 2.
pub static SEVERAL: Model = Model {
    words: "three
        0c 00 02 00 00 00 01 00 00 01 00 00
        14 00 02 00 00 00 02 00 05 00 01 00
            00 01 00 00 0a 00 00 00
        2c 00 02 00 00 00 00 00 1f 03 04 00
            00 00 00 00 00 00 00 00
            01 03 00 00 a0 86 01 00
            01 02 00 00 e8 03 00 00
            00 01 00 00 01 00 00 00
        0c 00 02 00 02 00 02 00 05 02 00 00
        14 00 02 00 02 00 00 00 07 00 01 00
            01 00 00 00 00 00 01 00",
    length: 116,
    summary: Summary {
        locations: 3,
        clocks: 2,
        width: 3,
        labels: 0x8000_00a1,
    },
    edges: 5,
    counts: &[
        (0, Some(3)),
        (1, Some(0)),
        (2, Some(2)),
        (3, None),
        (255, None),
        (256, None),
        (u32::MAX, None),
    ],
    heads: &[
        ((0, 0), Some((0, 1, 1, 0))),
        ((0, 1), Some((5, 2, 0, 1))),
        ((0, 2), Some((31, 0, 3, 4))),
        ((0, 3), None),
        ((0, u32::MAX), None),
        ((1, 0), None),
        ((2, 0), Some((5, 2, 2, 0))),
        ((2, 1), Some((7, 0, 0, 1))),
        ((2, 2), None),
        ((3, 0), None),
        ((256, 0), None),
        ((u32::MAX, 0), None),
    ],
    atoms: &[
        ((0, 0, 0), None),
        ((0, 1, 0), Some((0, AtMost, 10))),
        ((0, 1, 1), None),
        ((0, 2, 0), Some((0, Below, 0))),
        ((0, 2, 1), Some((1, AtLeast, 100_000))),
        ((0, 2, 2), Some((1, Above, 1_000))),
        ((0, 2, 3), Some((0, AtMost, 1))),
        ((0, 2, 4), None),
        ((0, 2, u32::MAX), None),
        ((0, 3, 0), None),
        ((0, u32::MAX, 0), None),
        ((1, 0, 0), None),
        ((2, 0, 0), None),
        ((2, 1, 0), Some((1, Below, 65_536))),
        ((2, 1, 1), None),
        ((2, 2, 0), None),
        ((3, 0, 0), None),
        ((256, 0, 0), None),
        ((u32::MAX, 0, 0), None),
    ],
};

// 256 locations, 4 clocks, and 1,024 edges of four atoms.
pub static LARGEST: Model = Model {
    words: "08 00 01 00 00 01 04 00 1024*long",
    length: 45_064,
    summary: Summary {
        locations: 256,
        clocks: 4,
        width: 1_024,
        labels: 0x8000_0000,
    },
    edges: 1_024,
    counts: &[
        (0, Some(0)),
        (254, Some(0)),
        (255, Some(1_024)),
        (256, None),
    ],
    heads: &[
        ((254, 0), None),
        ((255, 0), Some((31, 254, 15, 4))),
        ((255, 1_023), Some((31, 254, 15, 4))),
        ((255, 1_024), None),
        ((256, 0), None),
    ],
    atoms: &[
        ((255, 0, 0), Some((0, Below, 1))),
        ((255, 1_023, 2), Some((2, Above, 3))),
        ((255, 1_023, 3), Some((3, AtLeast, 100_000))),
        ((255, 1_023, 4), None),
        ((255, 1_024, 0), None),
        ((256, 0, 0), None),
    ],
};
