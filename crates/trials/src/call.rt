// The calls that are tried.
use edit::{EditFault, cut, discard, exchange, insert, make, paste, retype};
use grammar::Language;
use std::fmt;
use table::Node;

#[derive(Clone, Copy)]
pub enum Call {
    Make,
    // a node, a production and a literal
    Insert(u16, u8, i32),
    // a node
    Cut(u16),
    // a clipping's root and a node
    Paste(u16, u16),
    Exchange(u16, u16),
    // a node and a literal
    Retype(u16, i32),
    // a clipping's root, with a waiting list of some entries
    Discard(u16, u16),
}

impl Call {
    // How many entries the waiting list has that the call is lent.
    pub fn waiting(self) -> usize {
        match self {
            Call::Discard(_, entries) => entries as usize,
            _ => 0,
        }
    }

    // Makes the call. An accepted cut answers the number of the new hole, every other call nothing. A match, as there are these calls and no others.
    pub fn perform<L: Language>(
        self,
        language: &L,
        nodes: &mut [Node],
        values: &mut [L::Row],
        waiting: &mut [u16],
    ) -> Result<Option<u16>, EditFault> {
        match self {
            Call::Make => make(language, nodes, values)?,
            Call::Insert(node, production, literal) => {
                insert(language, nodes, values, node, production, literal)?
            }
            Call::Cut(node) => return Ok(Some(cut(language, nodes, values, node)?)),
            Call::Paste(root, node) => paste(language, nodes, values, root, node)?,
            Call::Exchange(root, node) => exchange(language, nodes, values, root, node)?,
            Call::Retype(node, literal) => retype(language, nodes, values, node, literal)?,
            Call::Discard(root, _) => discard(language, nodes, values, root, waiting)?,
        }
        Ok(None)
    }
}

// The call's name, and behind it its numbers.
impl fmt::Display for Call {
    fn fmt<W: fmt::Write>(&self, f: &mut fmt::Formatter<W>) -> fmt::Result {
        match self {
            Call::Make => write!(f, "make"),
            Call::Insert(node, production, literal) => {
                write!(f, "insert {node} {production} {literal}")
            }
            Call::Cut(node) => write!(f, "cut {node}"),
            Call::Paste(root, node) => write!(f, "paste {root} {node}"),
            Call::Exchange(root, node) => write!(f, "exchange {root} {node}"),
            Call::Retype(node, literal) => write!(f, "retype {node} {literal}"),
            Call::Discard(root, entries) => write!(f, "discard {root} {entries}"),
        }
    }
}
