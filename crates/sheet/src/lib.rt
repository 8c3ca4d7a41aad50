// Sheets by handles: the calls that make a sheet, edit it, and free a clipping. Whether a sheet is open or settled is told by the type of its
// handle, so that a program which edits an open sheet, forgets a clipping or uses one twice is not accepted.
#![tactic(auto)]

pub mod answer;
mod calls;
mod clipping_calls;
pub mod handle;

pub use answer::{
    CutOut, Discarded, Exchanged, Inserted, Made, Pasted, Refused, RefusedWithClipping, Retyped,
};
pub use calls::{insert, make, retype};
pub use clipping_calls::{cut, discard, exchange, paste};
pub use handle::{Clipping, Open, Settled};
