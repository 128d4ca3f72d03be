//! Names, texts, operations and cells.

use waff_model::{Cell, Op, Ops, Text, Texts, is_name};

const NAMES: &[(&str, bool)] = &[
    ("f", true),
    ("A-Z_a.z09", true),
    ("", false),
    ("m 1", false),
    ("caf\u{e9}", false),
    ("0123456789abcdef0123456789abcdef", true),
    ("0123456789abcdef0123456789abcdef0", false),
];

#[test]
fn tell_names(rt: HostRuntime) {
    for (text, is) in NAMES {
        assert!(rt; is_name(text) == *is, "{text}");
    }
}

#[test]
fn keep_texts_in_order(rt: HostRuntime) {
    let mut texts = Texts::new(rt.alloc());
    for text in ["m 1", ""] {
        let text = Text::of(rt.alloc(), text).expect(&rt, "a text");
        texts.push(text).expect(&rt, "a text");
    }
    assert!(rt; texts.len() == 2);
    assert!(rt; texts.get(0).as_str() == "m 1");
    assert!(rt; texts.get(1).as_str() == "");
    drop(texts);
}

#[test]
fn keep_operations_in_order(rt: HostRuntime) {
    let cell = Cell { space: 0, index: 4 };
    let kept = [
        Op::Read { cell },
        Op::Add { cell, value: 7 },
        Op::Set {
            cell,
            value: 1 << 32,
        },
        Op::Add { cell, value: 8 },
    ];
    let mut ops = Ops::new(rt.alloc());
    assert!(rt; ops.is_empty());
    for op in kept {
        ops.push(op).expect(&rt, "an operation");
    }
    assert!(rt; ops.len() == 4);
    for place in 0..4 {
        assert!(rt; ops.get(place) == kept[place]);
    }
    drop(ops);
}

#[test]
fn order_cells_by_space_first(rt: HostRuntime) {
    let cells = [(0, 9), (1, 0), (1, 1)].map(|(space, index)| Cell { space, index });
    assert!(rt; cells[0] < cells[1] && cells[1] < cells[2]);
}
