//! What operations do to cells: the meaning of a message, and the state of all cells.
//!
//! Values are of 64 bits and an addition wraps round. A state maps cells to values; a parcel is the
//! row of the cells that one affinity owns, in the order of cells.
//! - `state`: the state of all cells, which messages run on one after another.
//! - `rows`: operations run on rows of numbers, over `addresses`: where rows hold each cell.
//! - `parcel_table`: where each cell of a layout lies in the parcels.
//! - `parcels`: operations on the parcels of some affinities.
//! - `gather`: the state whose cells lie in parcels.
//! - `laws`: that what a message leaves in the cells that it names depends on these cells alone,
//!   and leaves all others.
//!
//! What operations do to cells is said by maps: the meaning of a message is what its operations, in
//! the order written, do to a map from cells to numbers (`specs/Meaning.antt`), and the state of
//! arrival order is the fold of the meanings over the map that is 0 everywhere
//! (`specs/Serial.antt`). A state is seen as a row of numbers for each space (`specs/Grid.antt`), a
//! parcel as the numbers of the cells that an affinity owns, each at its place
//! (`specs/Parcel.antt`). `add` counts modulo 2^64; `copy` and `swap` of a cell with itself change
//! nothing.
//!
//! Tests: `test_threads/src/states.rt` runs the sample traces message by message and by `serial`,
//! an addition that wraps, and a copy and a swap of a cell with itself.
#![tactic(auto)]

mod addresses;
mod gather;
pub mod laws;
mod parcel_table;
pub mod parcels;
mod rows;
mod state;

pub use parcel_table::ParcelTable;
pub use state::State;
