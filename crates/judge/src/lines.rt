// The lines of the scope document, "Numbers on each side".
use states::model::Given;

// A model by its name, which ends in a blank. Its tree has this centre first; each centre is joined to those before.
pub struct Line {
    pub name: &'static str,
    pub given: Given,
    pub first: u64,
}

pub const B: Given = Given {
    centres: 3,
    chains: 2,
    windows: [1, 1],
    loads: [[1, 2], [3, 0], [0, 1]],
};

pub const LINES: [Line; 12] = [
    Line {
        name: "B ",
        given: B,
        first: 1,
    },
    Line {
        name: "B, tree 2 3 join 1 join ",
        given: B,
        first: 2,
    },
    Line {
        name: "2 centres, window 2, loads 1 and 2 ",
        given: Given {
            centres: 2,
            chains: 1,
            windows: [2, 0],
            loads: [[1, 0], [2, 0], [0, 0]],
        },
        first: 1,
    },
    Line {
        name: "1 centre, windows 2 and 1, loads 2 and 3 ",
        given: Given {
            centres: 1,
            chains: 2,
            windows: [2, 1],
            loads: [[2, 3], [0, 0], [0, 0]],
        },
        first: 1,
    },
    Line {
        name: "1 centre, window 0, load 9 ",
        given: Given {
            centres: 1,
            chains: 1,
            windows: [0, 0],
            loads: [[9, 0], [0, 0], [0, 0]],
        },
        first: 1,
    },
    Line {
        name: "2 centres, only centre 1 visited, window 3, load 5 ",
        given: Given {
            centres: 2,
            chains: 1,
            windows: [3, 0],
            loads: [[5, 0], [0, 0], [0, 0]],
        },
        first: 1,
    },
    Line {
        name: "1 centre, window 4, load 65535 ",
        given: Given {
            centres: 1,
            chains: 1,
            windows: [4, 0],
            loads: [[65535, 0], [0, 0], [0, 0]],
        },
        first: 1,
    },
    Line {
        name: "1 centre, window 5, load 65535 ",
        given: Given {
            centres: 1,
            chains: 1,
            windows: [5, 0],
            loads: [[65535, 0], [0, 0], [0, 0]],
        },
        first: 1,
    },
    Line {
        name: "1 centre, window 8, load 256 ",
        given: Given {
            centres: 1,
            chains: 1,
            windows: [8, 0],
            loads: [[256, 0], [0, 0], [0, 0]],
        },
        first: 1,
    },
    Line {
        name: "1 centre, window 8, load 255 ",
        given: Given {
            centres: 1,
            chains: 1,
            windows: [8, 0],
            loads: [[255, 0], [0, 0], [0, 0]],
        },
        first: 1,
    },
    Line {
        name: "2 centres, window 4, loads 65535 and 1 ",
        given: Given {
            centres: 2,
            chains: 1,
            windows: [4, 0],
            loads: [[65535, 0], [1, 0], [0, 0]],
        },
        first: 1,
    },
    Line {
        name: "2 centres, window 4, both loads 65535 ",
        given: Given {
            centres: 2,
            chains: 1,
            windows: [4, 0],
            loads: [[65535, 0], [65535, 0], [0, 0]],
        },
        first: 1,
    },
];
