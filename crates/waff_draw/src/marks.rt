//! Which numbers a list has.

ghost use Rattle.std.specs.Prelude.{◌≡◌, ◌<◌, ℕ, All, IfOk, false, length, slice_index_or};
ghost use Rattle.waff_draw.specs.Lanes.{is_among};

use std::alloc::{AllocError, Global};

/// For each number below `count` whether it is in the list.
pub(crate) fn marks(alloc: Global, count: usize, numbers: &[u32]) -> Result<Vec<bool>, AllocError>
    requires { All (λ n. n < count) numbers.now }
    ensures count { IfOk result (λ marks. length marks.items ≡ count) }
    ensures each { IfOk result (λ marks. (n : ℕ)
        → n < count → slice_index_or marks.items n false ≡ is_among numbers.now n) }
{
    let mut marks = vec![in alloc; false; count]?;
    for number in numbers {
        marks[*number as usize] = true;
    }
    Ok(marks)
}
