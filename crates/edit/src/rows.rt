// The values of new nodes: they are blank.
ghost use Rattle.std.specs.Prelude.{◌+◌, ◌*◌, ◌≤◌, [], ◌∷◌, length};
ghost use Rattle.edit.specs.Memory.{AllStored, Blanked, BlankedFirst};

use grammar::{Figure, Language};

// Stores a row as each of some values. The library's own way asks for a clone that cannot fail, which a row's type need not have.
fn store_in_all<R: Copy>(values: &mut [R], row: R)
    ensures { AllStored row values.old values.new }
{
    for value in values.iter_mut() {
        *value = row;
    }
}

// Makes the four values of a node blank.
pub(crate) fn blank_node<L: Language>(values: &mut [L::Row], n: u16)
    requires { 4 * n + 4 ≤ length values.old }
    ensures { Blanked (λ row. L.Value.Figure.means (L.Value.Figure.reads row)) L.Value.Figure.nothing (n ∷ []) values.old values.new }
{
    let first = 4 * n as usize;
    store_in_all(&mut values[first..first + 4], L::Value::blank().store());
}

// Makes the first values blank, some count of them.
pub(crate) fn blank_first<L: Language>(values: &mut [L::Row], count: usize)
    requires { count ≤ length values.old }
    ensures { BlankedFirst (λ row. L.Value.Figure.means (L.Value.Figure.reads row)) L.Value.Figure.nothing count values.old values.new }
{
    store_in_all(&mut values[..count], L::Value::blank().store());
}
