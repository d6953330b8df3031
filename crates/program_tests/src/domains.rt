//! The abstract domains, each through its bound: what their calls give, row by row.
use absdom::{Domain, Pair, UnaryOperation};
use interval::Interval;
use isa::{ByteOrder, Extension, Operation, SwapWidth, Test, Width};
use knownbits::KnownBits;
use std::process::Abort;

/// A set of numbers.
#[derive(Clone, Copy)]
enum Numbers {
    Every,
    Only(u64),
    /// From the first number to the second, with the bits of the fourth under the third.
    Stated(u64, u64, u64, u64),
    /// From the first number to the second, by their signs.
    Signed(u64, u64),
}

/// A call of a domain.
#[derive(Clone, Copy)]
enum Call {
    Is(Numbers),
    Alu(Operation, Width, Numbers, Numbers),
    Unary(UnaryOperation, Numbers),
    /// What a test leaves of the left numbers, and of the right ones.
    Left(Test, Width, Numbers, Numbers),
    Right(Test, Width, Numbers, Numbers),
}

/// What is seen of a call's answer.
#[derive(Clone, Copy)]
enum Seen {
    Nothing,
    Range(u64, u64),
    Multiple(u32),
    /// Whether it is within these numbers, and whether they are within it.
    Compared(Numbers, bool, bool),
}

type Row = (Call, Seen);

const BITS64: Width = Width::Bits64;

const BITS32: Width = Width::Bits32;

// From -8 to 7.
const AROUND_ZERO: Numbers = Numbers::Signed(0xffff_ffff_ffff_fff8, 7);

// At most 63.
const AT_MOST_63: Numbers = Numbers::Signed(1 << 63, 63);

const EIGHT: Numbers = Numbers::Only(8);

const LESS_ONE: Numbers = Numbers::Only(u64::MAX);

const ZERO: Numbers = Numbers::Only(0);

const INTERVALS: &[Row] = &[
    // the least precision of arithmetic
    (
        Call::Alu(
            Operation::Add,
            BITS64,
            Numbers::Stated(1, 10, 0, 0),
            LESS_ONE,
        ),
        Seen::Range(0, 9),
    ),
    (
        Call::Alu(
            Operation::Add,
            BITS64,
            Numbers::Stated(0, 10, 0, 0),
            LESS_ONE,
        ),
        Seen::Range(0, u64::MAX),
    ),
    (
        Call::Alu(Operation::And, BITS64, Numbers::Every, Numbers::Only(255)),
        Seen::Range(0, 255),
    ),
    (
        Call::Alu(
            Operation::ShiftLeft,
            BITS64,
            Numbers::Stated(0, 255, 0, 0),
            Numbers::Only(3),
        ),
        Seen::Range(0, 2040),
    ),
    // 0 to 10 isn't 0, 0 to 5 is 9, and 0 to 100 is below 0
    (
        Call::Left(Test::NotEqual, BITS64, Numbers::Stated(0, 10, 0, 0), ZERO),
        Seen::Compared(Numbers::Stated(1, 10, 0, 0), true, true),
    ),
    (
        Call::Right(Test::NotEqual, BITS64, Numbers::Stated(0, 10, 0, 0), ZERO),
        Seen::Compared(ZERO, true, true),
    ),
    (
        Call::Left(
            Test::Equal,
            BITS64,
            Numbers::Stated(0, 5, 0, 0),
            Numbers::Only(9),
        ),
        Seen::Nothing,
    ),
    (
        Call::Left(
            Test::SignedLess,
            BITS64,
            Numbers::Stated(0, 100, 0, 0),
            ZERO,
        ),
        Seen::Nothing,
    ),
    // other operations
    (
        Call::Alu(
            Operation::Add,
            BITS32,
            LESS_ONE,
            Numbers::Stated(1, 1, 0, 0),
        ),
        Seen::Range(0, 0),
    ),
    (
        Call::Unary(UnaryOperation::Negate(BITS32), Numbers::Stated(1, 3, 0, 0)),
        Seen::Range(4_294_967_293, 4_294_967_295),
    ),
    (
        Call::Unary(
            UnaryOperation::Extend(Extension::Byte(BITS64)),
            Numbers::Only(0x80),
        ),
        Seen::Range(0xffff_ffff_ffff_ff80, 0xffff_ffff_ffff_ff80),
    ),
    (
        Call::Unary(
            UnaryOperation::Reorder(ByteOrder::Big, SwapWidth::Bits16),
            Numbers::Only(0x1234),
        ),
        Seen::Range(0x3412, 0x3412),
    ),
    // intervals within others, and what they are multiples of
    (
        Call::Is(Numbers::Stated(2, 3, 0, 0)),
        Seen::Compared(Numbers::Stated(1, 3, 0, 0), true, false),
    ),
    (
        Call::Is(Numbers::Stated(0, 3, 0, 0)),
        Seen::Compared(Numbers::Stated(1, 3, 0, 0), false, true),
    ),
    (Call::Is(ZERO), Seen::Multiple(64)),
    (Call::Is(Numbers::Stated(1, 8, 0, 0)), Seen::Multiple(0)),
    // signed orders trim signed bounds: at most 63, and of these the nonnegative, the positive and
    // the negative ones
    (Call::Is(AT_MOST_63), Seen::Range(0, u64::MAX)),
    (
        Call::Left(Test::SignedGreaterOrEqual, BITS64, AT_MOST_63, ZERO),
        Seen::Range(0, 63),
    ),
    (
        Call::Left(Test::SignedGreater, BITS64, AT_MOST_63, ZERO),
        Seen::Range(1, 63),
    ),
    (
        Call::Left(Test::SignedLess, BITS64, AT_MOST_63, ZERO),
        Seen::Range(1 << 63, u64::MAX),
    ),
    // of -8 to 7 those above 7, those equal to 8, and those at most 100 as unsigned numbers
    (
        Call::Left(Test::SignedGreater, BITS64, AROUND_ZERO, Numbers::Only(7)),
        Seen::Nothing,
    ),
    (
        Call::Left(Test::Equal, BITS64, AROUND_ZERO, EIGHT),
        Seen::Nothing,
    ),
    (
        Call::Left(Test::LessOrEqual, BITS64, AROUND_ZERO, Numbers::Only(100)),
        Seen::Range(0, 7),
    ),
    // a signed test of halves leaves whole numbers
    (
        Call::Left(Test::SignedLess, BITS32, AROUND_ZERO, ZERO),
        Seen::Compared(AROUND_ZERO, true, true),
    ),
    (
        Call::Right(Test::SignedLess, BITS32, AROUND_ZERO, ZERO),
        Seen::Compared(ZERO, true, true),
    ),
    // signed bounds are kept by moves, sums and differences: of -8 to 7 8 added, -8 subtracted, the
    // bits of 8 flipped, 8 added in the lower halves; and moved
    (
        Call::Alu(Operation::Add, BITS64, AROUND_ZERO, EIGHT),
        Seen::Range(0, 15),
    ),
    (
        Call::Alu(
            Operation::Subtract,
            BITS64,
            AROUND_ZERO,
            Numbers::Only(0xffff_ffff_ffff_fff8),
        ),
        Seen::Range(0, 15),
    ),
    (
        Call::Alu(Operation::Xor, BITS64, AROUND_ZERO, EIGHT),
        Seen::Range(0, u64::MAX),
    ),
    (
        Call::Alu(Operation::Add, BITS32, AROUND_ZERO, EIGHT),
        Seen::Range(0, 4_294_967_295),
    ),
    (
        Call::Alu(Operation::Move, BITS64, EIGHT, AROUND_ZERO),
        Seen::Compared(AROUND_ZERO, true, true),
    ),
    (
        Call::Is(AROUND_ZERO),
        Seen::Compared(Numbers::Every, true, false),
    ),
    (
        Call::Is(Numbers::Every),
        Seen::Compared(AROUND_ZERO, false, true),
    ),
    (
        Call::Is(Numbers::Stated(0, 7, 0, 0)),
        Seen::Compared(AROUND_ZERO, true, false),
    ),
    (
        Call::Is(Numbers::Stated(0, 8, 0, 0)),
        Seen::Compared(AROUND_ZERO, false, false),
    ),
];

// A byte, and eight times it.
const BYTE: Numbers = Numbers::Stated(0, u64::MAX, 0xffff_ffff_ffff_ff00, 0);

const EIGHTH: Numbers = Numbers::Stated(0, u64::MAX, 0xffff_ffff_ffff_f807, 0);

const LOW_BYTE: Numbers = Numbers::Stated(0, u64::MAX, 0xff, 0x0f);

const LOW_BITS: Numbers = Numbers::Stated(0, u64::MAX, 0xf0ff, 0x000f);

const HALF: Numbers = Numbers::Stated(0, u64::MAX, 0xffff_ffff, 1);

const KNOWN_BITS: &[Row] = &[
    // bit operations know their bits
    (
        Call::Alu(Operation::And, BITS64, Numbers::Every, Numbers::Only(255)),
        Seen::Compared(BYTE, true, true),
    ),
    (
        Call::Alu(Operation::ShiftLeft, BITS64, BYTE, Numbers::Only(3)),
        Seen::Compared(EIGHTH, true, true),
    ),
    (
        Call::Alu(Operation::Xor, BITS64, LOW_BYTE, Numbers::Only(0xff)),
        Seen::Compared(Numbers::Stated(0, u64::MAX, 0xff, 0xf0), true, true),
    ),
    (
        Call::Alu(Operation::Or, BITS64, LOW_BYTE, Numbers::Only(0xf00)),
        Seen::Compared(Numbers::Stated(0, u64::MAX, 0xfff, 0xf0f), true, true),
    ),
    (
        Call::Alu(Operation::ShiftRight, BITS64, EIGHTH, Numbers::Only(3)),
        Seen::Compared(BYTE, true, true),
    ),
    (Call::Is(EIGHTH), Seen::Multiple(3)),
    // sums and differences know their low bits
    (
        Call::Alu(Operation::Add, BITS64, LOW_BITS, Numbers::Only(1)),
        Seen::Compared(Numbers::Stated(0, u64::MAX, 0xff, 0x10), true, true),
    ),
    (
        Call::Alu(Operation::Subtract, BITS32, LOW_BITS, Numbers::Only(16)),
        Seen::Compared(
            Numbers::Stated(0, u64::MAX, 0xffff_ffff_0000_00ff, 0xff),
            true,
            true,
        ),
    ),
    // numbers give their result
    (
        Call::Alu(
            Operation::Modulo,
            BITS32,
            Numbers::Only(0xffff_ffff_0000_0005),
            ZERO,
        ),
        Seen::Compared(Numbers::Only(5), true, true),
    ),
    (
        Call::Alu(
            Operation::SignedDivide,
            BITS64,
            Numbers::Only(1 << 63),
            LESS_ONE,
        ),
        Seen::Compared(Numbers::Only(1 << 63), true, true),
    ),
    // -13
    (
        Call::Alu(
            Operation::SignedModulo,
            BITS64,
            Numbers::Only(0xffff_ffff_ffff_fff3),
            Numbers::Only(3),
        ),
        Seen::Compared(LESS_ONE, true, true),
    ),
    (
        Call::Alu(
            Operation::Multiply,
            BITS32,
            Numbers::Only(1 << 31),
            Numbers::Only(2),
        ),
        Seen::Compared(ZERO, true, true),
    ),
    (
        Call::Alu(
            Operation::Divide,
            BITS64,
            Numbers::Only(7),
            Numbers::Only(2),
        ),
        Seen::Compared(Numbers::Only(3), true, true),
    ),
    (
        Call::Alu(
            Operation::ArithmeticShiftRight,
            BITS32,
            Numbers::Only(0x8000_0000),
            Numbers::Only(31),
        ),
        Seen::Compared(Numbers::Only(0xffff_ffff), true, true),
    ),
    (
        Call::Alu(Operation::Move, BITS32, Numbers::Only(1), LESS_ONE),
        Seen::Compared(Numbers::Only(0xffff_ffff), true, true),
    ),
    (
        Call::Alu(Operation::Add, BITS64, LESS_ONE, Numbers::Only(1)),
        Seen::Compared(ZERO, true, true),
    ),
    // swaps and negations
    (
        Call::Unary(
            UnaryOperation::Reorder(ByteOrder::Big, SwapWidth::Bits32),
            Numbers::Only(0x1122_3344_5566_7788),
        ),
        Seen::Compared(Numbers::Only(0x8877_6655), true, true),
    ),
    (
        Call::Unary(UnaryOperation::Negate(BITS32), HALF),
        Seen::Compared(Numbers::Only(0xffff_ffff), true, true),
    ),
    (
        Call::Unary(UnaryOperation::Negate(BITS64), HALF),
        Seen::Compared(Numbers::Every, true, true),
    ),
    // 5 is 9; an odd number is one with a given upper byte; a number's lower half is that of 2^32;
    // 9 is less than 5
    (
        Call::Left(Test::Equal, BITS64, Numbers::Only(5), Numbers::Only(9)),
        Seen::Nothing,
    ),
    (
        Call::Left(
            Test::Equal,
            BITS64,
            Numbers::Stated(0, u64::MAX, 1, 1),
            Numbers::Stated(0, u64::MAX, 0xff00, 0x1200),
        ),
        Seen::Compared(Numbers::Stated(0, u64::MAX, 0xff01, 0x1201), true, true),
    ),
    (
        Call::Right(
            Test::Equal,
            BITS64,
            Numbers::Stated(0, u64::MAX, 1, 1),
            Numbers::Stated(0, u64::MAX, 0xff00, 0x1200),
        ),
        Seen::Compared(Numbers::Stated(0, u64::MAX, 0xff01, 0x1201), true, true),
    ),
    (
        Call::Left(Test::Equal, BITS32, Numbers::Every, Numbers::Only(1 << 32)),
        Seen::Compared(Numbers::Stated(0, u64::MAX, 0xffff_ffff, 0), true, true),
    ),
    (
        Call::Right(Test::Equal, BITS32, Numbers::Every, Numbers::Only(1 << 32)),
        Seen::Compared(Numbers::Only(1 << 32), true, true),
    ),
    (
        Call::Left(Test::Less, BITS64, Numbers::Only(9), Numbers::Only(5)),
        Seen::Compared(Numbers::Only(9), true, true),
    ),
    (
        Call::Right(Test::Less, BITS64, Numbers::Only(9), Numbers::Only(5)),
        Seen::Compared(Numbers::Only(5), true, true),
    ),
    // ranges, and places: 7 within odd numbers, and vice versa; even numbers within all
    (Call::Is(Numbers::Only(7)), Seen::Range(7, 7)),
    (
        Call::Is(Numbers::Stated(0, u64::MAX, 0xf0, 0x30)),
        Seen::Range(0x30, 0xffff_ffff_ffff_ff3f),
    ),
    (
        Call::Is(Numbers::Only(7)),
        Seen::Compared(Numbers::Stated(0, u64::MAX, 1, 1), true, false),
    ),
    (
        Call::Is(Numbers::Stated(0, u64::MAX, 1, 1)),
        Seen::Compared(Numbers::Only(7), false, true),
    ),
    (
        Call::Is(Numbers::Stated(0, u64::MAX, 1, 0)),
        Seen::Compared(Numbers::Every, true, false),
    ),
    (Call::Is(ZERO), Seen::Multiple(64)),
    (Call::Is(Numbers::Only(24)), Seen::Multiple(3)),
];

// The multiples of eight below 256.
const EIGHTS: Numbers = Numbers::Stated(0, 0xf8, !0xf8, 0);

// A value that stands for no number: its bounds and its known bits contradict each other.
const NONE: Numbers = Numbers::Stated(1, 2, 8, 8);

const PAIRS: &[Row] = &[
    // the parts narrow each other
    (
        Call::Is(Numbers::Stated(0, u64::MAX, !0xff, 0)),
        Seen::Range(0, 255),
    ),
    (
        Call::Is(Numbers::Stated(3, 300, 0xf01, 0x100)),
        Seen::Range(256, 300),
    ),
    (
        Call::Alu(Operation::And, BITS64, Numbers::Every, Numbers::Only(0xf8)),
        Seen::Range(0, 0xf8),
    ),
    (
        Call::Alu(Operation::And, BITS64, Numbers::Every, Numbers::Only(0xf8)),
        Seen::Compared(EIGHTS, true, true),
    ),
    (
        Call::Alu(Operation::Or, BITS64, EIGHTS, Numbers::Only(1)),
        Seen::Range(1, 0xf9),
    ),
    (Call::Is(NONE), Seen::Range(1, 2)),
    // those that are at least 0xf8 and those above it; and of no number those other than 0
    (
        Call::Left(Test::GreaterOrEqual, BITS64, EIGHTS, Numbers::Only(0xf8)),
        Seen::Compared(Numbers::Only(0xf8), true, true),
    ),
    (
        Call::Left(Test::Greater, BITS64, EIGHTS, Numbers::Only(0xf8)),
        Seen::Nothing,
    ),
    (
        Call::Left(Test::NotEqual, BITS64, NONE, ZERO),
        Seen::Nothing,
    ),
];

const PAIRS_OF_INTERVALS: &[Row] = &[
    (Call::Is(Numbers::Only(1)), Seen::Range(1, 1)),
    (Call::Is(Numbers::Stated(1, 1, 0, 0)), Seen::Range(1, 1)),
    (
        Call::Alu(
            Operation::Add,
            BITS64,
            Numbers::Stated(1, 2, 0, 0),
            Numbers::Only(1),
        ),
        Seen::Range(2, 3),
    ),
    (
        Call::Unary(UnaryOperation::Negate(BITS64), Numbers::Only(1)),
        Seen::Range(u64::MAX, u64::MAX),
    ),
    (
        Call::Is(Numbers::Only(1)),
        Seen::Compared(Numbers::Every, true, false),
    ),
    (
        Call::Is(Numbers::Only(1)),
        Seen::Compared(Numbers::Stated(2, 3, 0, 0), false, false),
    ),
    (
        Call::Left(
            Test::Equal,
            BITS64,
            Numbers::Stated(2, 3, 0, 0),
            Numbers::Only(1),
        ),
        Seen::Nothing,
    ),
    (Call::Is(ZERO), Seen::Multiple(64)),
];

// A domain.
#[derive(Clone, Copy)]
enum Kind {
    Intervals,
    KnownBits,
    Pairs,
    PairsOfIntervals,
}

const TABLES: &[(Kind, &str, &[Row])] = &[
    (Kind::Intervals, "intervals", INTERVALS),
    (Kind::KnownBits, "known bits", KNOWN_BITS),
    (Kind::Pairs, "pairs", PAIRS),
    (
        Kind::PairsOfIntervals,
        "pairs of intervals",
        PAIRS_OF_INTERVALS,
    ),
];

// What a test leaves of the left numbers, or of the right ones.
fn tested<D: Domain>(is_left: bool, test: Test, width: Width, left: D, right: D) -> Option<D> {
    match D::assume(test, width, left, right) {
        Some((left, right)) => Some(if is_left { left } else { right }),
        None => None,
    }
}

// What the test leaves of the numbers; all of them if it leaves none.
fn left_by<D: Domain>(test: Test, value: D, number: u64) -> D {
    match D::assume(test, BITS64, value, D::constant(number)) {
        Some((left, _)) => left,
        None => D::top(),
    }
}

fn between_signed<D: Domain>(low: u64, high: u64) -> D {
    let above = left_by(Test::SignedGreaterOrEqual, D::top(), low);
    left_by(Test::SignedLessOrEqual, above, high)
}

fn value_of<D: Domain>(numbers: Numbers) -> D {
    match numbers {
        Numbers::Every => D::top(),
        Numbers::Only(number) => D::constant(number),
        Numbers::Stated(low, high, mask, value) => D::stated(low, high, mask, value),
        Numbers::Signed(low, high) => between_signed(low, high),
    }
}

fn answer<D: Domain>(call: Call) -> Option<D> {
    match call {
        Call::Is(numbers) => Some(value_of(numbers)),
        Call::Alu(operation, width, left, right) => {
            Some(D::alu(operation, width, value_of(left), value_of(right)))
        }
        Call::Unary(operation, operand) => Some(D::unary(operation, value_of(operand))),
        Call::Left(test, width, left, right) => {
            tested(true, test, width, value_of(left), value_of(right))
        }
        Call::Right(test, width, left, right) => {
            tested(false, test, width, value_of(left), value_of(right))
        }
    }
}

fn is_seen<D: Domain>(found: D, seen: Seen) -> bool {
    match seen {
        Seen::Nothing => false,
        Seen::Range(low, high) => found.range() == (low, high),
        Seen::Multiple(exponent) => found.multiple() == exponent,
        Seen::Compared(numbers, is_within, has_within) => {
            let other: D = value_of(numbers);
            found.within(other) == is_within && other.within(found) == has_within
        }
    }
}

// Whether the row holds of the domain.
fn holds<D: Domain>(row: Row) -> bool {
    let (call, seen) = row;
    match answer::<D>(call) {
        None => matches!(seen, Seen::Nothing),
        Some(found) => is_seen(found, seen),
    }
}

fn holds_of(kind: Kind, row: Row) -> bool {
    match kind {
        Kind::Intervals => holds::<Interval>(row),
        Kind::KnownBits => holds::<KnownBits>(row),
        Kind::Pairs => holds::<Pair<Interval, KnownBits>>(row),
        Kind::PairsOfIntervals => holds::<Pair<Interval, Interval>>(row),
    }
}

// The number of the first row that doesn't hold of the domain, or the number of all rows.
fn first_wrong(kind: Kind, rows: &[Row]) -> usize {
    for (number, row) in rows.iter().enumerate() {
        if !holds_of(kind, *row) {
            return number;
        }
    }
    rows.len()
}

#[test]
fn each_domain_gives_its_numbers(rt: HostRuntime) {
    for table in TABLES {
        let (kind, name, rows) = *table;
        let wrong = first_wrong(kind, rows);
        assert!(rt; wrong == rows.len(), "{name}: row {wrong}");
    }
}
