//! Random traces, and the hierarchies under which they run.

use crate::dice::Dice;
use std::alloc::{AllocError, Global};
use std::fmt::Write;
use waff_samples::{C1, H1};

/// As many random traces as are compared.
pub const TRACES: u32 = 200;

/// As many messages as a random trace has.
pub const MESSAGES: u32 = 40;

/// The samples and a path. They have the same spaces.
pub const HIERARCHIES: [&str; 3] = [H1, C1, PATH];

/// Five affinities, each below the one before it, with the spaces of the samples.
const PATH: &str = "model = \"hierarchical\"\n\
[[space]]\nname = \"f\"\nsize = 8\n\
[[space]]\nname = \"m\"\nsize = 2\n\
[[space]]\nname = \"g\"\nsize = 8\n\
[[affinity]]\nname = \"P0\"\n\
[[affinity]]\nname = \"P1\"\nparent = \"P0\"\n\
[[affinity]]\nname = \"P2\"\nparent = \"P1\"\n\
[[affinity]]\nname = \"P3\"\nparent = \"P2\"\n\
[[affinity]]\nname = \"P4\"\nparent = \"P3\"\n\
[[map]]\nspace = \"f\"\nunit = 2\nto = [\"P0\", \"P1\", \"P2\", \"P3\"]\n\
[[map]]\nspace = \"m\"\nunit = 1\nto = [\"P1\", \"P2\"]\n\
[[map]]\nspace = \"g\"\nunit = 2\nto = [\"P4\", \"P3\"]\n\
";

/// A random trace, with releases or without.
pub fn random_trace(alloc: Global, dice: &mut Dice, releases: bool) -> Result<String, AllocError> {
    let mut text = String::from_str(alloc, if releases { V2 } else { V1 })?;
    for _ in 0..MESSAGES {
        push_times(&mut text, dice, releases)?;
        push_ops(&mut text, dice)?;
    }
    Ok(text)
}

/// A random trace of few clients, with releases and think times.
pub fn random_clients(alloc: Global, dice: &mut Dice) -> Result<String, AllocError> {
    let mut text = String::from_str(alloc, V3)?;
    let most = 1 + dice.below(4);
    for _ in 0..MESSAGES {
        let release = dice.below(60) * dice.below(2);
        let think = dice.below(20) * dice.below(2);
        let client = match dice.below(most) {
            0 => "a",
            1 => "b",
            2 => "-",
            _ => "c.1",
        };
        write!(
            text,
            "\nm,{},{release},{client},{think},",
            1 + dice.below(9)
        )?;
        push_ops(&mut text, dice)?;
    }
    Ok(text)
}

const V1: &str = "message,cost,ops";

const V2: &str = "message,cost,release,ops";

const V3: &str = "message,cost,release,client,think,ops";

/// Begins a line with a name, a cost and, if it has one, a release.
fn push_times(text: &mut String, dice: &mut Dice, releases: bool) -> Result<(), AllocError> {
    write!(text, "\nm,{},", 1 + dice.below(9))?;
    if releases {
        write!(text, "{},", dice.below(120))?;
    }
    Ok(())
}

/// Appends one to three operations, mostly on cells of one owner.
fn push_ops(text: &mut String, dice: &mut Dice) -> Result<(), AllocError> {
    let near = dice.below(CELLS);
    push_op(text, dice, near)?;
    for _ in 0..dice.below(3) {
        text.push_str(";")?;
        push_op(text, dice, near)?;
    }
    Ok(())
}

fn push_op(text: &mut String, dice: &mut Dice, near: u32) -> Result<(), AllocError> {
    let kind = dice.below(5);
    text.push_str(match kind {
        0 => "set",
        1 => "add",
        2 => "copy",
        3 => "swap",
        _ => "read",
    })?;
    push_cell(text, dice, near)?;
    match kind {
        0 | 1 => write!(text, " {}", dice.below(100)),
        2 | 3 => push_cell(text, dice, near),
        _ => Ok(()),
    }
}

/// As many cells as the spaces have.
const CELLS: u32 = 18;

/// Appends a cell: mostly this one or its neighbour, and now and then any.
fn push_cell(text: &mut String, dice: &mut Dice, near: u32) -> Result<(), AllocError> {
    let at = if dice.below(8) == 0 {
        dice.below(CELLS)
    } else {
        near ^ dice.below(2)
    };
    let (space, size) = match at / 8 {
        0 => ("f", 8),
        1 => ("g", 8),
        _ => ("m", 2),
    };
    write!(text, " {space}:{}", at % size)
}
