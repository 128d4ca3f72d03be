//! Trees, layouts and traces made by hand, among them the hierarchical sample and its two traces.

ghost use Rattle.std.specs.Prelude.{IsTrue, All};
ghost use Rattle.waff_model.specs.Layout.{IsCell};
ghost use Rattle.waff_model.specs.Cells.{cells_of_op};

use std::alloc::{AllocError, Global};
use std::process::Abort;
use waff_model::limits::{MAX_ALL_OPS, MAX_COST, MAX_OPS, MAX_RELEASE};
use waff_model::{
    AffinityId, Awaits, Cell, Client, Format, Kind, Layout, LayoutError, Locking, MapSpec, Message,
    Op, Ops, SpaceSpec, Text, Texts, Trace, Tree, TreeBuilder, TreeError, Version, is_name,
};

/// The name of a space, how many cells in a row go to one affinity, and the affinities that take
/// turns.
pub type Map<'a> = (&'a str, i64, &'a [&'a str]);

/// The tree of these affinities, each with the number of its parent.
pub fn tree(alloc: Global, rows: &[(&str, Option<u16>)]) -> Result<Tree, TreeError> {
    let mut builder = TreeBuilder::new(alloc);
    match add_all(&mut builder, rows) {
        Ok(()) => builder.build(),
        Err(e) => {
            drop(builder);
            Err(e)
        }
    }
}

fn add_all(builder: &mut TreeBuilder, rows: &[(&str, Option<u16>)]) -> Result<(), TreeError> {
    for (name, parent) in rows {
        builder.add(name, parent.map(AffinityId))?;
    }
    Ok(())
}

fn spaces_to_be(alloc: Global, rows: &[(&str, i64)]) -> Result<Vec<SpaceSpec>, AllocError> {
    let mut spaces = Vec::new(alloc);
    for (name, size) in rows {
        let name = Text::of(alloc, name)?;
        spaces.push(SpaceSpec {
            name,
            size: *size,
            locks: Locking::Unlocked,
        })?;
    }
    Ok(spaces)
}

fn texts(alloc: Global, words: &[&str]) -> Result<Texts, AllocError> {
    let mut texts = Texts::new(alloc);
    for word in words {
        texts.push(Text::of(alloc, word)?)?;
    }
    Ok(texts)
}

fn map_to_be(alloc: Global, row: &Map) -> Result<MapSpec, AllocError> {
    let (space, unit, owners) = *row;
    let to = texts(alloc, owners)?;
    let space = Text::of(alloc, space)?;
    Ok(MapSpec { space, unit, to })
}

fn maps_to_be(alloc: Global, rows: &[Map]) -> Result<Vec<MapSpec>, AllocError> {
    let mut maps = Vec::new(alloc);
    for row in rows {
        maps.push(map_to_be(alloc, row)?)?;
    }
    Ok(maps)
}

/// The layout of this format of these spaces and maps over the tree, or why they are refused.
pub fn laid_out(
    rt: &impl Abort,
    alloc: Global,
    format: Format,
    tree: Tree,
    spaces: &[(&str, i64)],
    maps: &[Map],
) -> Result<Layout, LayoutError> {
    let spaces = spaces_to_be(alloc, spaces).expect(rt, "spaces");
    let maps = maps_to_be(alloc, maps).expect(rt, "maps");
    let layout = Layout::with_format(alloc, format, Kind::Hierarchical, tree, &spaces, &maps);
    drop(spaces);
    drop(maps);
    layout
}

const TREE: &[(&str, Option<u16>)] = &[
    ("Serial", None),
    ("VolA", Some(0)),
    ("VolB", Some(0)),
    ("A0", Some(1)),
    ("A1", Some(1)),
    ("B0", Some(2)),
    ("B1", Some(2)),
];

const SPACES: &[(&str, i64)] = &[("f", 8), ("m", 2), ("g", 8)];

const MAPS: &[Map] = &[
    ("f", 2, &["A0", "A1"]),
    ("m", 1, &["VolA"]),
    ("g", 4, &["B0", "B1"]),
];

/// The layout of the hierarchical sample.
pub fn layout(rt: &impl Abort, alloc: Global) -> Layout {
    let tree = tree(alloc, TREE).expect(rt, "a tree");
    laid_out(rt, alloc, Format::F1, tree, SPACES, MAPS).expect(rt, "a layout")
}

/// A message of one operation: its name, cost and release, and the operation.
pub type Row<'a> = (&'a str, u32, u32, Op);

const F0: Cell = Cell { space: 0, index: 0 };

const F2: Cell = Cell { space: 0, index: 2 };

const F4: Cell = Cell { space: 0, index: 4 };

const G0: Cell = Cell { space: 2, index: 0 };

const G4: Cell = Cell { space: 2, index: 4 };

const SET_F0: Op = Op::Set { cell: F0, value: 5 };

const SET_G0: Op = Op::Set { cell: G0, value: 7 };

const COPY: Op = Op::Copy {
    cell: F2,
    source: F0,
};

const ADD_G4: Op = Op::Add { cell: G4, value: 1 };

const SWAP: Op = Op::Swap {
    cell: F2,
    other: G0,
};

const ADD_F4: Op = Op::Add { cell: F4, value: 1 };

/// The first trace of the samples: six messages.
pub const FIRST: &[Row] = &[
    ("m1", 4, 0, SET_F0),
    ("m2", 3, 0, SET_G0),
    ("m3", 2, 0, COPY),
    ("m4", 5, 0, ADD_G4),
    ("m5", 1, 0, SWAP),
    ("m6", 2, 0, ADD_F4),
];

/// The second trace of the samples: five messages with releases.
pub const SECOND: &[Row] = &[
    ("m1", 4, 0, SET_F0),
    ("m2", 3, 2, SET_G0),
    ("m3", 2, 10, COPY),
    ("m4", 5, 0, ADD_G4),
    ("m5", 1, 0, SWAP),
];

/// The trace of these messages, which have to be some for the layout.
pub fn trace(
    rt: &impl Abort,
    alloc: Global,
    layout: &Layout,
    version: Version,
    rows: &[Row],
) -> Trace {
    let mut trace = opened(alloc, layout, version).expect(rt, "a trace");
    for (name, cost, release, op) in rows {
        push(rt, alloc, layout, &mut trace, name, (*cost, *release), *op);
    }
    trace
}

/// A trace of no message.
fn opened(alloc: Global, layout: &Layout, version: Version) -> Result<Trace, AllocError> {
    match version {
        Version::V1 => Trace::new(alloc, layout),
        Version::V2 | Version::V3 | Version::V4 => Trace::with_version(alloc, layout, version),
    }
}

/// Appends a message of one operation, with its cost and its release, which has to be one for this
/// layout.
fn push(
    rt: &impl Abort,
    alloc: Global,
    layout: &Layout,
    trace: &mut Trace,
    name: &str,
    times: (u32, u32),
    op: Op,
) {
    let (cost, release) = times;
    assert!(rt; trace.fits(layout));
    assert!(rt; (trace.len() as usize) < trace.version().max_messages());
    assert!(rt; trace.op_count() < MAX_ALL_OPS);
    assert!(rt; is_name(name));
    assert!(rt; 1 <= cost && cost <= MAX_COST);
    assert!(rt; release <= MAX_RELEASE);
    assert!(rt; release == 0 || trace.version() != Version::V1);
    assert!(rt; 1 <= trace.version().max_ops());
    assert!(rt; lies(layout, op));
    let mut ops = Ops::new(alloc);
    ops.push(op).expect(rt, "an operation");
    let name = Text::of(alloc, name).expect(rt, "a name");
    let message = Message {
        name,
        cost,
        release,
        client: Client::none(),
        think: 0,
        after: Awaits::none(),
        ops,
    };
    trace.push(message).expect(rt, "a message");
}

/// Whether the cells of the operation are cells of the layout.
fn lies(layout: &Layout, op: Op) -> bool
    ensures { IsTrue result → All (IsCell layout.now.spaces) (cells_of_op op) }
{
    match op {
        Op::Set { cell, .. } | Op::Add { cell, .. } | Op::Read { cell } => layout.has(cell),
        Op::Copy { cell, source } => layout.has(cell) && layout.has(source),
        Op::Swap { cell, other } => layout.has(cell) && layout.has(other),
    }
}
