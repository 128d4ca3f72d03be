//! Hierarchies that are one long path.

use crate::hierarchies::is_told;
use std::alloc::{AllocError, Global};
use std::fmt::Write;

/// A path of so many affinities, n0 and on, each below the one before it, the first and the last of
/// which own a cell each.
pub fn path(alloc: Global, count: u32) -> Result<String, AllocError> {
    let mut text = String::from_str(
        alloc,
        "model = \"hierarchical\"\n[[affinity]]\nname = \"n0\"\n",
    )?;
    push_affinities(&mut text, count)?;
    Ok(text)
}

fn push_affinities(text: &mut String, count: u32) -> Result<(), AllocError> {
    let mut last = 0;
    for n in 1..count {
        write!(
            text,
            "[[affinity]]\nname = \"n{n}\"\nparent = \"n{last}\"\n"
        )?;
        last = n;
    }
    write!(
        text,
        "[[space]]\nname = \"f\"\nsize = 2\n[[map]]\nspace = \"f\"\nunit = 1\nto = [\"n0\", \"n{last}\"]\n"
    )?;
    Ok(())
}

/// Paths of so many affinities, and how they are refused, or read.
const COUNTS: &[(u32, &str)] = &[(4096, "None"), (4097, "Some(Tree(TooMany))")];

#[test]
fn have_the_affinities_of_the_limit(rt: HostRuntime) {
    for (count, wanted) in COUNTS {
        let hierarchy = path(rt.alloc(), *count).expect(&rt, "a text");
        is_told(&rt, rt.alloc(), hierarchy.as_bytes(), wanted);
    }
}
