// The waiting list: one stack over lent slots.
ghost use Rattle.std.specs.Prelude.{◌≡◌, ℕ, ◌≤◌, length};
ghost use Rattle.table.specs.Stacks.{PushAnswer, PopAnswer};

// The first `len` slots hold the entries, the last of them on top.
// A slice with a length beside it: the slots are the caller's, and there is no heap here for a Vec.
#[derive(Drop)]
pub struct Stack<'a, T> {
    slots: &'a mut [T],
    len: usize,
    ghost fits: { len ≤ length slots.now },
}

impl<'a, T: Copy> Stack<'a, T> {
    // An empty stack over the slots.
    pub fn new(slots: &'a mut [T]) -> Stack<'a, T>
        ensures empty { result.len ≡ 0 }
        ensures same { result.slots.now ≡ slots.old }
    {
        Stack { slots, len: 0 }
    }

    // Puts an entry on top. Hands it back where every slot is taken; nothing has changed then.
    pub fn push(&mut self, entry: T) -> Result<(), T>
        ensures { PushAnswer entry self.old.slots.now self.new.slots.now self.old.len self.new.len result }
    {
        if self.len == self.slots.len() {
            return Err(entry);
        }
        self.slots[self.len] = entry;
        self.len += 1;
        Ok(())
    }

    // Takes the top entry off. None where there is none.
    pub fn pop(&mut self) -> Option<T>
        ensures { PopAnswer self.old.slots.now self.new.slots.now self.old.len self.new.len result }
    {
        self.len = self.len.checked_sub(1)?;
        Some(self.slots[self.len])
    }
}
