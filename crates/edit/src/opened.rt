// What left a sheet open: the calls after which figures are stale until the next propagation.
ghost use Rattle.std.specs.Prelude.{Some};
ghost use Rattle.edit.specs.Opening.{call_text};

use std::fmt;

// The call that left a sheet open.
#[derive(Clone, Copy, PartialEq, Eq)]
pub enum OpenedBy {
    Make,
    Insert,
    Cut,
    Paste,
    Exchange,
    Retype,
}

impl fmt::Display for OpenedBy {
    ghost output = { λ call. Some (call_text call) };

    fn fmt<W: fmt::Write>(&self, f: &mut fmt::Formatter<W>) -> fmt::Result {
        f.write_str(match self {
            OpenedBy::Make => "make",
            OpenedBy::Insert => "insert",
            OpenedBy::Cut => "cut",
            OpenedBy::Paste => "paste",
            OpenedBy::Exchange => "exchange",
            OpenedBy::Retype => "retype",
        })
    }
}
