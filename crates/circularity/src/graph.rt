// One production's local graph: the attributes at its places, with an edge from each to those that it waits on directly,
// or, at a child, by the relation that is chosen for the child's tree. There are at most 16 vertices, so a row of edges is a 16-bit number.
ghost use Rattle.std.specs.Prelude.{◌≡◌, ℕ, ◌+◌, ◌*◌, ◌/◌, ◌%◌, ◌^◌, ◌<◌, ◌≤◌, true, false, bit_or, slice_index};
ghost use Rattle.grammar.specs.Grammar.{Grammar};
ghost use Rattle.circularity.specs.Bits.{has as has_bit, through as taken_through, closed_below, field};
ghost use Rattle.circularity.specs.Working.{vertex as vertex_of, bits_of, parent_row, child_row, row_of, rows_of, has_cycle as has_a_cycle, relation_in, outcome as outcome_is, ChildAt};

use grammar::{Language, Occurrence};
use std::array;

// The relations chosen for the trees of a production's children, as numbers below 16; 0, the empty relation, where there is no child.
pub(crate) type Choice = [u16; 3];

// What choices of the children's relations give: the relations of the production's trees, as a set of bits, and whether there is a cycle. Each holds
// whatever the other is, so this is no Result.
#[derive(Clone, Copy)]
pub(crate) struct Outcome {
    pub relations: u16,
    pub cyclic: bool,
}

// Whether a bit is set. That a bit or a vertex is below 16 is asked for, here and below: each comes out of a range or an array of 16, and a type of its
// own would be made and taken apart at each use.
pub(crate) fn has(bits: u16, bit: usize) -> bool
    requires { bit < 16 }
    ensures { result ≡ has_bit bits bit }
{
    (bits >> bit) % 2 == 1
}

// The vertex of an occurrence. Places and attributes of a language are below 4.
fn vertex(occurrence: Occurrence) -> u32
    ensures value { result ≡ vertex_of occurrence.place occurrence.attribute }
    ensures bound { result < 16 }
{
    4 * u32::from(occurrence.place % 4) + u32::from(occurrence.attribute % 4)
}

// The vertices of a rule's arguments, as a set of bits.
fn argument_bits(arguments: &[Occurrence]) -> u16
    ensures { result ≡ bits_of arguments.now }
{
    arguments
        .iter()
        .fold(0, |row, argument| row | 1 << vertex(*argument))
}

// The inherited attributes on which the synthesized attribute of a number depends by a relation over some inherited ones.
fn relation_field(relation: u16, inherited: u8, number: u8) -> u16
    requires few { inherited ≤ 4 }
    requires small { number < 4 }
    ensures { result ≡ field inherited relation number }
{
    (relation >> (inherited * number)) % (1 << inherited)
}

// A graph: for each vertex the row of its edges.
#[derive(Drop)]
struct Graph {
    rows: [u16; 16],
}

impl Graph {
    // Every row that has an edge to a vertex takes over that vertex's edges.
    #[tactic(auto, using(crate::proofs::Turns::through_nothing))]
    fn go_through(&mut self, vertex: usize)
        requires { vertex < 16 }
        ensures { self.new.rows ≡ taken_through vertex self.old.rows }
    {
        let edges = self.rows[vertex];
        if edges == 0 {
            return;
        }
        // In place: an array's map takes twice the time. One write on either way, which the proof goes by.
        for row in &mut self.rows {
            *row = if has(*row, vertex) {
                *row | edges
            } else {
                *row
            };
        }
    }

    // The closure: an edge wherever there was a way.
    fn close(&mut self)
        ensures { self.new.rows ≡ closed_below 16 self.old.rows }
    {
        // The vertices themselves, in turn; no row is read by them here.
        for vertex in 0..16usize {
            self.go_through(vertex);
        }
    }

    // Whether the graph, once closed, has a cycle.
    fn has_cycle(&self) -> bool
        ensures { result ≡ has_a_cycle self.now.rows }
    {
        self.rows
            .iter()
            .enumerate()
            .any(|(vertex, row)| has(*row, vertex))
    }

    // The relation that the graph, once closed, gives the production's own symbol, by the numbers of its inherited and synthesized attributes.
    #[tactic(auto, using(crate::proofs::Small::relation_below))]
    fn own_relation(&self, inherited: u8, synthesized: u8) -> u16
        requires { inherited + synthesized ≤ 4 }
        ensures value { result ≡ relation_in self.now.rows inherited synthesized }
        ensures bound { result < 16 }
    {
        let mut relation = 0u16;
        // The numbers of the attributes: each is also a place in the relation.
        for number in 0..synthesized {
            let row = self.rows[usize::from(inherited + number)];
            relation |= (row % (1 << inherited)) << (inherited * number);
        }
        relation
    }
}

// A production of a language.
#[derive(Drop)]
pub(crate) struct Production<'a, L: Language> {
    pub language: &'a L,
    pub number: u8,
    ghost exists: { number < (L.grammar language.now).productions },
}

impl<'a, L: Language> Production<'a, L> {
    // The production's own symbol.
    #[tactic(auto, using(crate::proofs::Small::own_symbol))]
    pub(crate) fn symbol(&self) -> u8
        ensures value { result ≡ (L.grammar self.now.language.now).symbol self.now.number }
        ensures bound { result < 16 }
    {
        self.language.symbol(self.number)
    }

    // The symbol of the child at an index, counted from 0, where there is such a child.
    pub(crate) fn child(&self, index: u8) -> Option<u8>
        ensures { ChildAt (L.grammar self.now.language.now) self.now.number index result }
    {
        let children = self.language.children(self.number);
        children.get(usize::from(index)).copied()
    }

    // The edges from an attribute of the production's own symbol: to the arguments of its rule, if it is synthesized.
    fn own_edges(&self, attribute: u8) -> u16
        ensures { result ≡ parent_row (L.grammar self.now.language.now) self.now.number attribute }
    {
        let symbol = self.symbol();
        let inherited = self.language.inherited(symbol);
        if attribute < inherited || attribute - inherited >= self.language.synthesized(symbol) {
            return 0;
        }
        let own = Occurrence {
            place: 0,
            attribute,
        };
        argument_bits(self.language.arguments(self.number, own))
    }

    // The edges from an attribute of the child at an index: to the arguments of its rule, if it is inherited; if it is synthesized, to the inherited
    // attributes on which it depends by the relation chosen for the child's tree.
    fn child_edges(&self, choice: Choice, index: u8, attribute: u8) -> u16
        requires three { index < 3 }
        requires few { attribute < 4 }
        ensures { result ≡ child_row (L.grammar self.now.language.now) self.now.number choice index attribute }
    {
        let Some(symbol) = self.child(index) else {
            return 0;
        };
        let inherited = self.language.inherited(symbol);
        if attribute < inherited {
            let given = Occurrence {
                place: index + 1,
                attribute,
            };
            return argument_bits(self.language.arguments(self.number, given));
        }
        if attribute - inherited >= self.language.synthesized(symbol) {
            return 0;
        }
        let depended_on = relation_field(
            choice[usize::from(index)],
            inherited,
            attribute - inherited,
        );
        depended_on << (4 * (index + 1))
    }

    // The edges from a vertex.
    fn edges(&self, choice: Choice, vertex: usize) -> u16
        requires { vertex < 16 }
        ensures { result ≡ row_of (L.grammar self.now.language.now) self.now.number choice vertex }
    {
        let place = (vertex / 4) as u8;
        let attribute = (vertex % 4) as u8;
        if place == 0 {
            self.own_edges(attribute)
        } else {
            self.child_edges(choice, place - 1, attribute)
        }
    }

    // The local graph.
    fn local_graph(&self, choice: Choice) -> Graph
        ensures { result.rows ≡ rows_of (L.grammar self.now.language.now) self.now.number choice }
    {
        Graph {
            rows: array::from_fn(|vertex| self.edges(choice, vertex)),
        }
    }

    // What one choice of the children's relations gives.
    pub(crate) fn outcome(&self, choice: Choice) -> Outcome
        ensures { result ≡ outcome_is (L.grammar self.now.language.now) self.now.number choice }
    {
        let mut graph = self.local_graph(choice);
        graph.close();
        let symbol = self.symbol();
        let relation = graph.own_relation(
            self.language.inherited(symbol),
            self.language.synthesized(symbol),
        );
        Outcome {
            relations: 1 << relation,
            cyclic: graph.has_cycle(),
        }
    }
}
