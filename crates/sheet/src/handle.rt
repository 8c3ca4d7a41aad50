// Handles of a sheet, and clippings. None can be made from numbers outside this crate: they come from calls alone.
ghost use Rattle.std.specs.Prelude.{◌≡◌};

use edit::OpenedBy;

// The handle of an open sheet: its figures are stale until the next propagation. It keeps the call that left the sheet open and the first node that
// the call touched.
#[derive(Drop)]
pub struct Open {
    pub(crate) call: OpenedBy,
    pub(crate) node: u16,
}

impl Open {
    // The call that left the sheet open.
    pub fn call(&self) -> OpenedBy
        ensures { result ≡ self.now.call }
    {
        self.call
    }

    // The first node that the call touched.
    pub fn node(&self) -> u16
        ensures { result ≡ self.now.node }
    {
        self.node
    }
}

// The handle of a settled sheet, which may be edited and read. It holds nothing.
#[derive(Drop)]
pub struct Settled(pub(crate) ());

// A subtree that was cut out and is neither hung back nor freed, by the number of its root. It is no `Drop`: it has to be spent by paste, exchange or
// discard.
pub struct Clipping {
    pub(crate) root: u16,
}

impl Clipping {
    // The node at the clipping's root.
    pub fn root(&self) -> u16
        ensures { result ≡ self.now.root }
    {
        self.root
    }
}
