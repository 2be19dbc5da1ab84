//! Operators by the tables of the standard, and the calls that take memory.
use ann_base::Raised;
use machine_operators::{binary_value, text_of_whole, unary_value};
use machine_program::initial_cells;
use profile_image::{BinaryOperator, CellRun, ImageList, Scope, UnaryOperator, Value};

// ISO/IEC 8652:2012, 4.5.5 has the signs; the last rows are at the ends of Integer.
#[test]
fn operators_of_integers(rt: HostRuntime) {
    let table = [
        (BinaryOperator::Divide, 11, 5, Some(2)),
        (BinaryOperator::Divide, -11, 5, Some(-2)),
        (BinaryOperator::Divide, 11, -5, Some(-2)),
        (BinaryOperator::Divide, -11, -5, Some(2)),
        (BinaryOperator::Rem, 11, 5, Some(1)),
        (BinaryOperator::Rem, -11, 5, Some(-1)),
        (BinaryOperator::Rem, 11, -5, Some(1)),
        (BinaryOperator::Rem, -11, -5, Some(-1)),
        (BinaryOperator::Mod, 11, 5, Some(1)),
        (BinaryOperator::Mod, -11, 5, Some(4)),
        (BinaryOperator::Mod, 11, -5, Some(-4)),
        (BinaryOperator::Mod, -11, -5, Some(-1)),
        (BinaryOperator::Mod, 10, -5, Some(0)),
        (BinaryOperator::Minus, 3, 5, Some(-2)),
        (BinaryOperator::Mod, 11, 0, None),
        (BinaryOperator::Plus, 2_147_483_647, 1, None),
        (BinaryOperator::Times, 65_536, 32_768, None),
        (BinaryOperator::Divide, -2_147_483_648, -1, None),
        (BinaryOperator::Rem, -2_147_483_648, -1, Some(0)),
    ];
    for (operator, left, right, wanted) in table {
        let value = binary_value(operator, Value::Whole(left), Value::Whole(right));
        assert!(rt; value == wanted.map(Value::Whole).ok_or(Raised::Constraint));
    }
}

#[test]
fn other_operators(rt: HostRuntime) {
    let last = Value::Ticks(4_611_686_018_427_387_903);
    let table = [
        (BinaryOperator::Plus, last, Value::Ticks(1), None),
        (
            BinaryOperator::Times,
            Value::Whole(-3),
            Value::Ticks(20),
            Some(Value::Ticks(-60)),
        ),
        (
            BinaryOperator::Xor,
            Value::Truth(true),
            Value::Truth(true),
            Some(Value::Truth(false)),
        ),
    ];
    for (operator, left, right, wanted) in table {
        assert!(rt; binary_value(operator, left, right) == wanted.ok_or(Raised::Constraint));
    }
    assert!(rt;
        unary_value(UnaryOperator::Abs, Value::Whole(-2_147_483_648)) == Err(Raised::Constraint)
    );
}

#[test]
fn image_of_an_integer(rt: HostRuntime) {
    let alloc = rt.alloc();
    for (number, text) in [(-40, b"-40".as_slice()), (7, b" 7")] {
        assert!(rt;
            text_of_whole(alloc, Value::Whole(number))
                .expect(&rt, "memory")
                .as_slice()
                == text
        );
    }
}

#[test]
fn cells_of_a_scope(rt: HostRuntime) {
    let alloc = rt.alloc();
    let mut runs = ImageList::new(alloc);
    runs.push(CellRun {
        place: 1,
        count: 5,
        value: Value::Truth(false),
    })
    .expect(&rt, "memory");
    runs.push(CellRun {
        place: 2,
        count: 1,
        value: Value::Whole(1),
    })
    .expect(&rt, "memory");
    let scope = Scope {
        outer: None,
        size: 4,
        cells: runs,
        kept: false,
        first: None,
    };
    let cells = initial_cells(alloc, &scope).expect(&rt, "memory");
    assert!(rt;
        cells.as_slice()
            == [
                Value::Whole(0),
                Value::Truth(false),
                Value::Whole(1),
                Value::Truth(false)
            ]
            .as_slice()
    );
}
