// Patterns, searches and splits at examples.
use patterns::block::Block;
use patterns::find::{first_covered, first_fit};
use patterns::pattern::Pattern;
use patterns::row::{RangeRow, Target, TernaryRow};
use patterns::span::Span;
use patterns::split::split;
use patterns::ternary::Ternary;
use std::test::Fail;

const DONE: Target = Target::Done;

// The topmost 16 bits are an EtherType: 0x8100 of a VLAN tag, 0x0800 of IPv4.
const VLAN: TernaryRow = TernaryRow {
    value: 0x8100_0000,
    mask: 0xffff_0000,
    target: DONE,
};

const IPV4: TernaryRow = TernaryRow {
    value: 0x0800_0000,
    mask: 0xffff_0000,
    target: DONE,
};

const ANY: TernaryRow = TernaryRow {
    value: 0,
    mask: 0,
    target: DONE,
};
// A value bit lies outside the mask, so the row makes no pattern.
const STRAY: TernaryRow = TernaryRow {
    value: 0x8100_0001,
    mask: 0xffff_0000,
    target: DONE,
};

const DIGITS: RangeRow = RangeRow {
    low: 0,
    high: 9,
    target: DONE,
};

const TWENTIES: RangeRow = RangeRow {
    low: 20,
    high: 29,
    target: DONE,
};

const LATE_TWENTIES: RangeRow = RangeRow {
    low: 25,
    high: 29,
    target: DONE,
};
// Low is above high, so the row makes no pattern.
const REVERSED: RangeRow = RangeRow {
    low: 5,
    high: 4,
    target: DONE,
};

// Rows, key, first row that it fits, first row that one before covers.
const TERNARY_CASES: [([TernaryRow; 3], u32, Option<usize>, Option<usize>); 5] = [
    ([STRAY, VLAN, IPV4], 0x8100_0001, Some(1), None),
    ([STRAY, VLAN, IPV4], 0x0800_1234, Some(2), None),
    ([STRAY, VLAN, IPV4], 0x86dd_0000, None, None),
    ([VLAN, ANY, IPV4], 0x0800_1234, Some(1), Some(2)),
    ([ANY, STRAY, VLAN], 0xffff_ffff, Some(0), Some(2)),
];

const RANGE_CASES: [([RangeRow; 3], u16, Option<usize>, Option<usize>); 5] = [
    ([REVERSED, DIGITS, TWENTIES], 5, Some(1), None),
    ([REVERSED, DIGITS, TWENTIES], 29, Some(2), None),
    ([REVERSED, DIGITS, TWENTIES], 30, None, None),
    ([LATE_TWENTIES, TWENTIES, DIGITS], 20, Some(1), None),
    ([TWENTIES, REVERSED, LATE_TWENTIES], 25, Some(0), Some(2)),
];

// The first row that the key fits, and the first that one before covers.
fn found<P: Pattern>(rows: &[P::Plain], key: P::Key) -> (Option<usize>, Option<usize>) {
    (first_fit::<P>(rows, key), first_covered::<P>(rows))
}

#[test]
fn ternary_rows_are_found(rt: HostRuntime) {
    for (rows, key, fit, covered) in TERNARY_CASES {
        assert_eq!(rt; found::<Ternary>(&rows, key), (fit, covered));
    }
}

#[test]
fn range_rows_are_found(rt: HostRuntime) {
    for (rows, key, fit, covered) in RANGE_CASES {
        assert_eq!(rt; found::<Span>(&rows, key), (fit, covered));
    }
}

// Row, key, other row; whether the row's pattern takes the key, and whether it covers the other's.
const TERNARY_ANSWERS: [(TernaryRow, u32, TernaryRow, Option<(bool, bool)>); 4] = [
    (VLAN, 0x8100_1234, ANY, Some((true, false))),
    (VLAN, 0x0800_1234, IPV4, Some((false, false))),
    (ANY, 0xffff_ffff, VLAN, Some((true, true))),
    (STRAY, 0x8100_0001, VLAN, None),
];

const RANGE_ANSWERS: [(RangeRow, u16, RangeRow, Option<(bool, bool)>); 4] = [
    (TWENTIES, 20, TWENTIES, Some((true, true))),
    (TWENTIES, 30, LATE_TWENTIES, Some((false, true))),
    (LATE_TWENTIES, 29, TWENTIES, Some((true, false))),
    (DIGITS, 5, REVERSED, None),
];

// Whether the row's pattern takes the key and whether it covers the other's, if both rows make one.
fn answers<P: Pattern>(row: &P::Plain, key: P::Key, other: &P::Plain) -> Option<(bool, bool)> {
    match (P::make(row), P::make(other)) {
        (Some(pattern), Some(second)) => Some((pattern.fits(key), pattern.covers(&second))),
        _ => None,
    }
}

#[test]
fn patterns_fit_and_cover(rt: HostRuntime) {
    for (row, key, other, expected) in TERNARY_ANSWERS {
        assert_eq!(rt; answers::<Ternary>(&row, key, &other), expected);
    }
    for (row, key, other, expected) in RANGE_ANSWERS {
        assert_eq!(rt; answers::<Span>(&row, key, &other), expected);
    }
}

// A row, and another that its pattern covers: itself too.
const TERNARY_COVERED: [(TernaryRow, TernaryRow); 4] = [
    (VLAN, VLAN),
    (ANY, VLAN),
    (ANY, IPV4),
    (ANY, ANY),
];

const RANGES_COVERED: [(RangeRow, RangeRow); 3] = [
    (DIGITS, DIGITS),
    (TWENTIES, LATE_TWENTIES),
    (LATE_TWENTIES, LATE_TWENTIES),
];

// Whether the row's pattern takes its own sample, and that of the other's pattern, if both rows make one.
fn samples_taken<P: Pattern>(row: &P::Plain, other: &P::Plain) -> Option<(bool, bool)> {
    match (P::make(row), P::make(other)) {
        (Some(pattern), Some(second)) => Some((
            pattern.fits(pattern.sample()),
            pattern.fits(second.sample()),
        )),
        _ => None,
    }
}

#[test]
fn samples_fit(rt: HostRuntime) {
    for (row, other) in TERNARY_COVERED {
        assert_eq!(rt; samples_taken::<Ternary>(&row, &other), Some((true, true)));
    }
    for (row, other) in RANGES_COVERED {
        assert_eq!(rt; samples_taken::<Span>(&row, &other), Some((true, true)));
    }
    assert_eq!(rt; samples_taken::<Ternary>(&STRAY, &ANY), None);
    assert_eq!(rt; samples_taken::<Span>(&DIGITS, &REVERSED), None);
}

const UNUSED: Block = Block { value: 0, mask: 0 };
// Low, high, how many blocks, and the first three places of the array after the call.
const SPLIT_CASES: [(u16, u16, usize, [Block; 3]); 2] = [
    (
        0,
        0x05ff,
        2,
        [
            Block {
                value: 0x0000,
                mask: 0xfc00,
            },
            Block {
                value: 0x0400,
                mask: 0xfe00,
            },
            UNUSED,
        ],
    ),
    (
        1,
        0xfffe,
        30,
        [
            Block {
                value: 1,
                mask: 0xffff,
            },
            Block {
                value: 2,
                mask: 0xfffe,
            },
            Block {
                value: 4,
                mask: 0xfffc,
            },
        ],
    ),
];

#[test]
fn ranges_are_split(rt: HostRuntime) -> Result<(), Fail> {
    for (low, high, count, front) in SPLIT_CASES {
        let row = RangeRow {
            low,
            high,
            target: DONE,
        };
        let Some(span) = <Span as Pattern>::make(&row) else {
            assert!(rt; false);
            return Ok(());
        };
        let mut out = [UNUSED; 30];
        assert_eq!(rt; split(&span, &mut out), count);
        assert_eq!(rt; [out[0], out[1], out[2]], front);
    }
    Ok(())
}
