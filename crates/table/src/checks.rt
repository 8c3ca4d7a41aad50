// The checks that calls make before they do anything, in their order.
ghost use Rattle.std.specs.Prelude.{◌≡◌, ℕ, ◌≤◌, [], ◌∷◌, length, IfOk, MatchBool};
ghost use Rattle.table.specs.Refusals.{Answer};
ghost use Rattle.table.specs.Checks.{Sized, memory, beginning, long_enough};

use crate::climb::Table;
use crate::fault::TableFault;
use crate::node::Node;
use circularity::test;
use grammar::Language;

// Whether there are 1 to 1000 nodes, and four values for each.
fn is_sized(nodes: usize, values: usize) -> bool
    ensures { MatchBool result (Sized nodes values) (Sized nodes values → ⊥) }
{
    (1..=1000).contains(&nodes) && 4 * nodes <= values
}

// What every call checks first: the language, and the sizes of the lent memory.
pub fn check_memory<L: Language>(
    language: &L,
    nodes: usize,
    values: usize,
) -> Result<(), TableFault>
    ensures { Answer (memory (L.grammar language.now) nodes values) result }
{
    test(language)?;
    if !is_sized(nodes, values) {
        return Err(TableFault::Size);
    }
    Ok(())
}

// What a call sees of what it is lent: the language, the nodes, and how many values there are.
#[derive_where(Clone, Copy)]
pub struct View<'a, L> {
    pub language: &'a L,
    pub nodes: &'a [Node],
    pub values: usize,
}

impl<'a, L: Language> View<'a, L> {
    // What every call checks first, and the table of the nodes.
    pub fn check_memory(self) -> Result<Table<'a>, TableFault>
        ensures answer { Answer (memory (L.grammar self.entry.language.now) (length self.entry.nodes.now) self.entry.values) result }
        ensures table { IfOk result (λ table. table.nodes.now ≡ self.entry.nodes.now) }
    {
        check_memory(self.language, self.nodes.len(), self.values)?;
        Ok(Table::new(self.nodes))
    }

    // What every call on a sheet checks first: the language, the sizes, and that the nodes form a sheet.
    pub fn begin(self) -> Result<Table<'a>, TableFault>
        ensures answer { Answer (beginning (L.grammar self.entry.language.now) self.entry.nodes.now self.entry.values) result }
        ensures table { IfOk result (λ table. table.nodes.now ≡ self.entry.nodes.now) }
    {
        let table = self.check_memory()?;
        if !table.is_sheet(self.language) {
            return Err(TableFault::NoSheet);
        }
        Ok(table)
    }
}

// Refuses an output buffer that is too short.
pub fn check_buffer(size: usize, needed: usize) -> Result<(), TableFault>
    ensures { Answer (long_enough size needed ∷ []) result }
{
    if size < needed {
        return Err(TableFault::Buffer);
    }
    Ok(())
}
