// What the calls answer: the handle of the sheet as they leave it, and the clipping that they hand out or hand back. Each call has an answer of its
// own, though some have the same fields today, so that an answer can gain a field without the others.
use crate::handle::{Clipping, Open, Settled};
use edit::EditFault;

#[derive(Drop)]
pub struct Made {
    pub sheet: Open,
}

#[derive(Drop)]
pub struct Inserted {
    pub sheet: Open,
}

pub struct CutOut {
    pub sheet: Open,
    pub clipping: Clipping,
}

#[derive(Drop)]
pub struct Pasted {
    pub sheet: Open,
}

pub struct Exchanged {
    pub sheet: Open,
    pub clipping: Clipping,
}

#[derive(Drop)]
pub struct Retyped {
    pub sheet: Open,
}

#[derive(Drop)]
pub struct Discarded {}

// A refused edit hands its handle back.
#[derive(Drop)]
pub struct Refused {
    pub sheet: Settled,
    pub fault: EditFault,
}

// A refused edit with a clipping hands back both.
pub struct RefusedWithClipping {
    pub sheet: Settled,
    pub clipping: Clipping,
    pub fault: EditFault,
}
