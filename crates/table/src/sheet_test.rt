// Whether the nodes of a table form a sheet.
ghost use Rattle.std.specs.Prelude.{◌≡◌, ◌<◌, length, MatchBool};
ghost use Rattle.table.specs.Nodes.{at as record_at, Used};
ghost use Rattle.table.specs.Sheets.{Hole, OneChildOf, Hangs, InOrder, Good, Sheet};
ghost use Rattle.table.specs.Testing.{ChildOf, ChildrenFit, RecordFits};

use crate::climb::{Table, is_used, used_node};
use crate::node::{NONE, Node};
use grammar::Language;

// Whether a production is a hole.
pub fn is_hole<L: Language>(language: &L, production: u8) -> bool
    ensures { MatchBool result (Hole (L.grammar language.now) production) (Hole (L.grammar language.now) production → ⊥) }
{
    production != 0 && production < language.symbols()
}

// A node of a table, and the language that it is tested by. That the node is in use is asked for by the tests that `is_good` goes on to where it is: a
// type for a used node would be made there alone.
#[derive(Drop)]
struct Entry<'a, L> {
    language: &'a L,
    table: Table<'a>,
    n: u16,
    ghost inside: { n < length table.nodes.now },
}

impl<'a, L: Language> Entry<'a, L> {
    // Node n of a table.
    fn new(language: &'a L, table: Table<'a>, n: u16) -> Entry<'a, L>
        requires { n < length table.nodes.now }
        ensures same_language { result.language.now ≡ language.now }
        ensures same_nodes { result.table.nodes.now ≡ table.entry.nodes.now }
        ensures same_number { result.n ≡ n }
    {
        Entry { language, table, n }
    }

    // The node's record.
    fn node(&self) -> &'a Node
        ensures { result.now ≡ record_at self.now.table.nodes.now self.now.n }
    {
        &self.table.nodes[usize::from(self.n)]
    }

    // Whether a child that the node names is in use, has a symbol and names the node as its parent.
    fn has_child(&self, child: u16, symbol: u8) -> bool
        ensures { MatchBool result (ChildOf (L.grammar self.now.language.now) self.now.table.nodes.now self.now.n child symbol) (ChildOf (L.grammar self.now.language.now) self.now.table.nodes.now self.now.n child symbol → ⊥) }
    {
        match used_node(self.table.nodes, child) {
            Some(node) => {
                self.language.symbol(node.production) == symbol && node.parent == self.n
            }
            None => false,
        }
    }

    // Whether every child is as it should be.
    fn children_fit(&self) -> bool
        requires { (record_at self.now.table.nodes.now self.now.n).production < (L.grammar self.now.language.now).productions }
        ensures { MatchBool result (ChildrenFit (L.grammar self.now.language.now) self.now.table.nodes.now self.now.n) (ChildrenFit (L.grammar self.now.language.now) self.now.table.nodes.now self.now.n → ⊥) }
    {
        let node = self.node();
        let symbols = self.language.children(node.production);
        node.children
            .iter()
            .zip(symbols)
            .all(|(child, symbol)| self.has_child(*child, *symbol))
    }

    // Whether the node's record is right, but for how the node hangs and that climbing ends.
    fn record_fits(&self) -> bool
        ensures { MatchBool result (RecordFits (L.grammar self.now.language.now) self.now.table.nodes.now self.now.n) (RecordFits (L.grammar self.now.language.now) self.now.table.nodes.now self.now.n → ⊥) }
    {
        let node = self.node();
        node.production < self.language.productions()
            && (self.n == 0) == (node.production == 0)
            && self.language.accepts(node.production, node.literal)
            && self.children_fit()
            && node.has_no_child_from(self.language.children(node.production).len())
    }

    // Whether the node is exactly one child of node m, which is in use; where m's production does not exist, the nodes form no sheet.
    fn is_one_child_of(&self, m: u16) -> bool
        requires { Used self.now.table.nodes.now m }
        ensures { MatchBool result (OneChildOf (L.grammar self.now.language.now) self.now.table.nodes.now m self.now.n) (Sheet (L.grammar self.now.language.now) self.now.table.nodes.now → OneChildOf (L.grammar self.now.language.now) self.now.table.nodes.now m self.now.n → ⊥) }
    {
        let parent = &self.table.nodes[usize::from(m)];
        parent.production < self.language.productions()
            && parent.names_once(self.language.children(parent.production).len(), self.n)
    }

    // Whether the node, which is in use, hangs as it should; where it does not, the nodes form no sheet.
    fn hangs(&self) -> bool
        requires { Used self.now.table.nodes.now self.now.n }
        ensures { MatchBool result (Hangs (L.grammar self.now.language.now) self.now.table.nodes.now self.now.n) (Sheet (L.grammar self.now.language.now) self.now.table.nodes.now → ⊥) }
    {
        let node = self.node();
        if self.n == 0 {
            node.parent == NONE
        } else if node.parent == NONE {
            !is_hole(self.language, node.production)
        } else {
            is_used(self.table.nodes, node.parent) && self.is_one_child_of(node.parent)
        }
    }

    // Whether the node, which is in use, is in order; where it is not, the nodes form no sheet.
    fn is_in_order(&self) -> bool
        requires { Used self.now.table.nodes.now self.now.n }
        ensures { MatchBool result (InOrder (L.grammar self.now.language.now) self.now.table.nodes.now self.now.n) (Sheet (L.grammar self.now.language.now) self.now.table.nodes.now → ⊥) }
    {
        self.record_fits() && self.hangs() && self.table.top_of(self.n).is_some()
    }

    // Whether the node is in order or blank; where it is neither, the nodes form no sheet.
    fn is_good(&self) -> bool
        ensures { MatchBool result (Good (L.grammar self.now.language.now) self.now.table.nodes.now self.now.n) (Sheet (L.grammar self.now.language.now) self.now.table.nodes.now → ⊥) }
    {
        let node = self.node();
        if node.used {
            self.is_in_order()
        } else {
            node.is_blank()
        }
    }
}

impl<'a> Table<'a> {
    // Whether the nodes form a sheet.
    pub fn is_sheet<L: Language>(self, language: &L) -> bool
        ensures { MatchBool result (Sheet (L.grammar language.now) self.entry.nodes.now) (Sheet (L.grammar language.now) self.entry.nodes.now → ⊥) }
    {
        is_used(self.nodes, 0)
            && (0..self.nodes.len() as u16).all(|n| Entry::new(language, self, n).is_good())
    }
}
