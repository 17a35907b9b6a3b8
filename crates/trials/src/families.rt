// The families of lists.

// How the lists of a family are handed in: each request by itself; all at once; drawn, up to eight at a time; all at once, cut at any byte;
// drawn for an operator who sets back; all at once, with any space for the answers. The table of numbers holds its number.
#[derive(Clone, Copy)]
pub(crate) enum Mode {
    Alone,
    AtOnce,
    Drawn,
    Cut,
    SetBack,
    Space,
}

// Volume pages, branch rows, record rows and place rows of a store.
#[derive(Clone, Copy)]
pub(crate) struct Sizes {
    pub(crate) pages: u32,
    pub(crate) branches: u32,
    pub(crate) records: u32,
    pub(crate) places: u32,
}

const SMALLEST: Sizes = Sizes {
    pages: 1,
    branches: 1,
    records: 1,
    places: 1,
};

const SMALL: Sizes = Sizes {
    pages: 2,
    branches: 3,
    records: 4,
    places: 3,
};

const LARGER: Sizes = Sizes {
    pages: 3,
    branches: 6,
    records: 5,
    places: 6,
};

const LARGEST: Sizes = Sizes {
    pages: 4,
    branches: 16,
    records: 20,
    places: 16,
};

// Its name, where its line is written, or it counts with the next; how its lists are handed in, the letters of its alphabet, the length of a
// list, and how many lists; its store; the first letter of its alphabet, how many names it draws, and its first moment; whether changes are
// tried.
#[derive(Clone, Copy)]
pub(crate) struct Family {
    pub(crate) name: Option<&'static str>,
    pub(crate) mode: Mode,
    pub(crate) letters: u32,
    pub(crate) length: u32,
    pub(crate) lists: u32,
    pub(crate) store: Sizes,
    pub(crate) first: u32,
    pub(crate) called: u32,
    pub(crate) base: u32,
    pub(crate) changes: bool,
}

// Every list of one of the 18 letters.
const PLAIN: Family = Family {
    name: None,
    mode: Mode::Alone,
    letters: 18,
    length: 1,
    lists: 18,
    store: SMALL,
    first: 0,
    called: 0,
    base: 0,
    changes: false,
};

// Drawn lists of 40 batches.
const DRAWN: Family = Family {
    mode: Mode::Drawn,
    letters: 1,
    length: 40,
    lists: 1000,
    ..PLAIN
};

// Ten moments before the last.
const LATE: u32 = 4294967285;

// Three requests without a page are at most 45 bytes, their answers 15: 125 lists with 46 cuts, or 16 areas.
pub(crate) static FAMILIES: [Family; 31] = [
    PLAIN,
    Family {
        length: 2,
        lists: 324,
        ..PLAIN
    },
    Family {
        length: 3,
        lists: 5832,
        ..PLAIN
    },
    Family {
        name: Some("18 letters, length 1 to 4, a batch each"),
        length: 4,
        lists: 104976,
        ..PLAIN
    },
    Family {
        mode: Mode::AtOnce,
        ..PLAIN
    },
    Family {
        mode: Mode::AtOnce,
        length: 2,
        lists: 324,
        ..PLAIN
    },
    Family {
        mode: Mode::AtOnce,
        length: 3,
        lists: 5832,
        ..PLAIN
    },
    Family {
        name: Some("18 letters, length 1 to 4, one batch"),
        mode: Mode::AtOnce,
        length: 4,
        lists: 104976,
        ..PLAIN
    },
    Family {
        name: Some("10 letters, length 5, a batch each"),
        letters: 10,
        length: 5,
        lists: 100000,
        ..PLAIN
    },
    Family {
        name: Some("10 letters, length 5, one batch"),
        mode: Mode::AtOnce,
        letters: 10,
        length: 5,
        lists: 100000,
        ..PLAIN
    },
    Family {
        name: Some("7 letters, length 6, one batch"),
        mode: Mode::AtOnce,
        letters: 7,
        length: 6,
        lists: 117649,
        store: LARGER,
        ..PLAIN
    },
    Family {
        name: Some("5 letters, length 3, one batch, every cut"),
        mode: Mode::Cut,
        letters: 5,
        length: 3,
        lists: 98750,
        first: 18,
        ..PLAIN
    },
    Family {
        name: Some("5 letters, length 3, one batch, every answer area"),
        mode: Mode::Space,
        letters: 5,
        length: 3,
        lists: 99500,
        first: 18,
        ..PLAIN
    },
    Family {
        name: Some("drawn, 1 branch row"),
        lists: 500,
        store: SMALLEST,
        ..DRAWN
    },
    Family {
        name: Some("drawn, 3 branch rows"),
        lists: 1500,
        ..DRAWN
    },
    Family {
        name: Some("drawn, 6 branch rows"),
        lists: 1500,
        store: LARGER,
        ..DRAWN
    },
    Family {
        name: Some("drawn, 16 branch rows"),
        store: LARGEST,
        ..DRAWN
    },
    Family {
        name: Some("drawn, up to the last moment"),
        length: 10,
        store: LARGER,
        base: LATE,
        ..DRAWN
    },
    Family {
        name: Some("18 letters, length 2, each number of the store changed, records swapped"),
        length: 2,
        lists: 324,
        changes: true,
        ..PLAIN
    },
    Family {
        name: Some("drawn, 16 branch rows, each number of the store changed, records swapped"),
        lists: 100,
        store: LARGEST,
        changes: true,
        ..DRAWN
    },
    Family {
        name: Some("10 letters with names, length 5, a batch each"),
        letters: 10,
        length: 5,
        lists: 100000,
        first: 23,
        ..PLAIN
    },
    Family {
        name: Some("10 letters with names, length 5, one batch"),
        mode: Mode::AtOnce,
        letters: 10,
        length: 5,
        lists: 100000,
        first: 23,
        ..PLAIN
    },
    Family {
        name: Some("7 letters with names, length 6, one batch"),
        mode: Mode::AtOnce,
        letters: 7,
        length: 6,
        lists: 117649,
        first: 23,
        ..PLAIN
    },
    Family {
        name: Some("5 letters with names, length 3, one batch, every cut"),
        mode: Mode::Cut,
        letters: 5,
        length: 3,
        lists: 5750,
        first: 33,
        ..PLAIN
    },
    Family {
        name: Some("5 letters with names, length 3, one batch, every answer area"),
        mode: Mode::Space,
        letters: 5,
        length: 3,
        lists: 2000,
        first: 33,
        ..PLAIN
    },
    Family {
        name: Some("drawn, 4 names, 3 branch rows"),
        called: 4,
        ..DRAWN
    },
    Family {
        name: Some("drawn, 128 names, 16 branch rows"),
        store: LARGEST,
        called: 128,
        ..DRAWN
    },
    Family {
        name: Some("drawn, 4 names, up to the last moment"),
        length: 10,
        store: LARGER,
        called: 4,
        base: LATE,
        ..DRAWN
    },
    Family {
        name: Some(
            "7 letters with names, length 3, each number of the store changed, records swapped",
        ),
        letters: 7,
        length: 3,
        lists: 343,
        first: 23,
        changes: true,
        ..PLAIN
    },
    Family {
        name: Some(
            "drawn, 128 names, 16 branch rows, each number of the store changed, records swapped",
        ),
        lists: 50,
        store: LARGEST,
        called: 128,
        changes: true,
        ..DRAWN
    },
    Family {
        name: Some("drawn, set back into the last moments, 4 names, 16 branch rows"),
        mode: Mode::SetBack,
        letters: 1,
        length: 120,
        lists: 400,
        store: LARGEST,
        ..PLAIN
    },
];

// The families of the faults: without names, with names, and with the rows that a reclaim leaves.
pub(crate) static WITHOUT_NAMES: Family = Family {
    length: 2,
    lists: 324,
    ..PLAIN
};

pub(crate) static WITH_NAMES: Family = Family {
    letters: 10,
    length: 3,
    lists: 1000,
    first: 23,
    ..PLAIN
};

pub(crate) static SETTING_BACK: Family = Family {
    mode: Mode::SetBack,
    letters: 1,
    length: 60,
    lists: 100,
    store: LARGEST,
    ..PLAIN
};
