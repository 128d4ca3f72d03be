//! Operations run on rows of numbers, in their order.

ghost use Rattle.std.specs.Prelude.{◌≡◌, length, map, All};
ghost use Rattle.waff_model.specs.Cells.{cells_of, cells_of_op};
ghost use Rattle.waff_cells.specs.Grid.{HasSizes};
ghost use Rattle.waff_cells.specs.Held.{rows_of, number_at, AreWithin, IsWithin};
ghost use Rattle.waff_cells.specs.RowEffects.{with_number_at, row_effect, row_meaning};

use crate::addresses::Addresses;
use waff_model::{Op, Ops};

/// Runs the operations on the rows, which hold each cell at its address.
pub(crate) fn run<A: Addresses>(rows: &mut [Vec<u64>], addresses: &A, ops: &Ops)
    requires has { All (A.has addresses.now) (cells_of ops.now) }
    requires within { AreWithin (map length (rows_of rows.old))
        (A.at addresses.now) (cells_of ops.now) }
    ensures sizes { HasSizes (rows_of rows.new) (map length (rows_of rows.old)) }
    ensures rows { rows_of rows.new ≡ row_meaning (A.at addresses.now) ops.now (rows_of rows.old) }
{
    for at in 0..ops.len() {
        run_op(rows, addresses, ops.get(at));
    }
}

/// Runs the operation on the rows.
fn run_op<A: Addresses>(rows: &mut [Vec<u64>], addresses: &A, op: Op)
    requires has { All (A.has addresses.now) (cells_of_op op) }
    requires within { AreWithin (map length (rows_of rows.old))
        (A.at addresses.now) (cells_of_op op) }
    ensures sizes { HasSizes (rows_of rows.new) (map length (rows_of rows.old)) }
    ensures effect { rows_of rows.new ≡ row_effect (A.at addresses.now) op (rows_of rows.old) }
{
    match op {
        Op::Set { cell, value } => write(rows, addresses.address(cell), value),
        Op::Add { cell, value } => {
            let at = addresses.address(cell);
            let before = number_at(rows, at);
            write(rows, at, before.wrapping_add(value));
        }
        Op::Copy { cell, source } => {
            let value = number_at(rows, addresses.address(source));
            write(rows, addresses.address(cell), value);
        }
        Op::Swap { cell, other } => {
            let (one_at, other_at) = (addresses.address(cell), addresses.address(other));
            let one = number_at(rows, one_at);
            let two = number_at(rows, other_at);
            write(rows, one_at, two);
            write(rows, other_at, one);
        }
        Op::Read { .. } => {}
    }
}

/// The number at the address.
pub(crate) fn number_at(rows: &[Vec<u64>], at: (usize, usize)) -> u64
    requires { IsWithin (map length (rows_of rows.now)) at }
    ensures { result ≡ number_at (rows_of rows.now) at }
{
    rows[at.0][at.1]
}

/// Writes the number at the address.
fn write(rows: &mut [Vec<u64>], at: (usize, usize), number: u64)
    requires { IsWithin (map length (rows_of rows.old)) at }
    ensures sizes { HasSizes (rows_of rows.new) (map length (rows_of rows.old)) }
    ensures rows { rows_of rows.new ≡ with_number_at (rows_of rows.old) at number }
{
    let numbers = &mut rows[at.0];
    numbers[at.1] = number;
}
