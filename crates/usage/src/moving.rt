// A clipping is spent by paste, exchange or discard, and only once.
use formula::{Formula, QuantityRow};
use sheet::{Clipping, CutOut, Open, RefusedWithClipping, Settled, cut, discard, paste};
use table::Node;

// Takes a subtree off the sheet: the sheet is open, with the clipping, or else settled as before.
pub fn take_off(
    nodes: &mut [Node],
    values: &mut [QuantityRow],
    sheet: Settled,
    node: u16,
) -> Result<(Open, Clipping), Settled> {
    match cut(&Formula, nodes, values, sheet, node) {
        Ok(CutOut { sheet, clipping }) => Ok((sheet, clipping)),
        Err(refused) => Err(refused.sheet),
    }
}

// Frees the clipping that a refused edit handed back.
fn give_up(
    nodes: &mut [Node],
    values: &[QuantityRow],
    refused: RefusedWithClipping,
    waiting: &mut [u16],
) -> Settled {
    let RefusedWithClipping {
        sheet,
        clipping,
        fault: _,
    } = refused;
    // The clipping is spent whatever the answer; where it is a refusal, its nodes stay.
    let _ = discard(&Formula, nodes, values, &sheet, clipping, waiting);
    sheet
}

// Hangs a clipping in the place of a hole. Where that is refused, its nodes are freed, and the sheet is settled.
pub fn hang_or_free(
    nodes: &mut [Node],
    values: &mut [QuantityRow],
    sheet: Settled,
    clipping: Clipping,
    node: u16,
    waiting: &mut [u16],
) -> Result<Open, Settled> {
    match paste(&Formula, nodes, values, sheet, clipping, node) {
        Ok(pasted) => Ok(pasted.sheet),
        Err(refused) => Err(give_up(nodes, values, refused, waiting)),
    }
}
