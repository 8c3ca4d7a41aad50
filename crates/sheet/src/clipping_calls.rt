// The calls that hand out clippings and spend them: cut, paste, exchange and discard.
ghost use Rattle.sheet.specs.Handled.{CutHandled, PasteHandled, ExchangeHandled, DiscardHandled};

use crate::answer::{CutOut, Discarded, Exchanged, Pasted, Refused, RefusedWithClipping};
use crate::handle::{Clipping, Open, Settled};
use edit::{EditFault, OpenedBy};
use grammar::Language;
use table::Node;

// Cuts the subtree at a node out, with a new hole in its place, and hands it out as a clipping.
pub fn cut<L: Language>(
    language: &L,
    nodes: &mut [Node],
    values: &mut [L::Row],
    sheet: Settled,
    node: u16,
) -> Result<CutOut, Refused>
    ensures { CutHandled (L.grammar language.now) (λ row. L.Value.Figure.means (L.Value.Figure.reads row)) L.Value.Figure.nothing nodes.old values.old nodes.new values.new node result }
{
    let hole = edit::cut(language, nodes, values, node).map_err(|fault| Refused { sheet, fault })?;
    Ok(CutOut {
        sheet: Open {
            call: OpenedBy::Cut,
            node: hole,
        },
        clipping: Clipping { root: node },
    })
}

// Hangs a clipping in the place of a hole, whose node becomes free. A match and no `map_err`: a closure may not hold the clipping, which has to be
// spent or handed back on each way.
pub fn paste<L: Language>(
    language: &L,
    nodes: &mut [Node],
    values: &mut [L::Row],
    sheet: Settled,
    clipping: Clipping,
    node: u16,
) -> Result<Pasted, RefusedWithClipping>
    ensures { PasteHandled (L.grammar language.now) (λ row. L.Value.Figure.means (L.Value.Figure.reads row)) L.Value.Figure.nothing nodes.old values.old nodes.new values.new clipping node result }
{
    match edit::paste(language, nodes, values, clipping.root, node) {
        Ok(()) => {
            let Clipping { root } = clipping;
            let sheet = Open {
                call: OpenedBy::Paste,
                node: nodes[root as usize].parent,
            };
            Ok(Pasted { sheet })
        }
        Err(fault) => Err(RefusedWithClipping {
            sheet,
            clipping,
            fault,
        }),
    }
}

// Hangs a clipping in the place of a subtree, and hands the subtree out as a clipping. A match, as in paste.
pub fn exchange<L: Language>(
    language: &L,
    nodes: &mut [Node],
    values: &mut [L::Row],
    sheet: Settled,
    clipping: Clipping,
    node: u16,
) -> Result<Exchanged, RefusedWithClipping>
    ensures { ExchangeHandled (L.grammar language.now) (λ row. L.Value.Figure.means (L.Value.Figure.reads row)) L.Value.Figure.nothing nodes.old values.old nodes.new values.new clipping node result }
{
    match edit::exchange(language, nodes, values, clipping.root, node) {
        Ok(()) => {
            let Clipping { root } = clipping;
            let sheet = Open {
                call: OpenedBy::Exchange,
                node: nodes[root as usize].parent,
            };
            Ok(Exchanged {
                sheet,
                clipping: Clipping { root: node },
            })
        }
        Err(fault) => Err(RefusedWithClipping {
            sheet,
            clipping,
            fault,
        }),
    }
}

// Frees a clipping's nodes. The waiting list has to have an entry for each node; those entries may change. The clipping is spent, also where the call
// is refused; its nodes stay as they are then.
pub fn discard<L: Language>(
    language: &L,
    nodes: &mut [Node],
    values: &[L::Row],
    _sheet: &Settled,
    clipping: Clipping,
    waiting: &mut [u16],
) -> Result<Discarded, EditFault>
    ensures { DiscardHandled (L.grammar language.now) (λ row. L.Value.Figure.means (L.Value.Figure.reads row)) L.Value.Figure.nothing nodes.old values.now nodes.new values.now clipping waiting.old waiting.new result }
{
    let Clipping { root } = clipping;
    edit::discard(language, nodes, values, root, waiting)?;
    Ok(Discarded {})
}
