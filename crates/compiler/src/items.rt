// What is done with a list in fixed memory.
ghost use Rattle.std.specs.Prelude.{◌≡◌, ◌+◌, ◌<◌, ◌≤◌, [], ◌∷◌, ◌++◌, length, take};
ghost use Rattle.compiler.specs.Held.{held};

use crate::few::Few;

impl<T: Copy, const N: usize> Few<T, N> {
    /// No items. What stands in the free places is never seen.
    pub fn new(blank: T) -> Few<T, N>
        ensures { held result ≡ [] }
    {
        Few {
            items: [blank; N],
            count: 0,
        }
    }

    // The first `count` items of an array.
    pub(crate) fn counted(items: [T; N], count: usize) -> Few<T, N>
        requires { count ≤ N }
        ensures { held result ≡ take count items }
    {
        Few { items, count }
    }

    /// The items, in order.
    pub fn as_slice(&self) -> &[T]
        ensures is { result.now ≡ held self.now }
        ensures few { length result.now ≤ N }
    {
        &self.items[..self.count]
    }

    // Leaves no items.
    pub(crate) fn clear(&mut self)
        ensures { held self.new ≡ [] }
    {
        self.count = 0;
    }

    // Puts an item behind the others.
    pub(crate) fn push(&mut self, item: T)
        requires { length (held self.old) < N }
        ensures { held self.new ≡ held self.old ++ (item ∷ []) }
    {
        self.items[self.count] = item;
        self.count += 1;
    }

    // Puts items behind the others, in order.
    pub(crate) fn extend_from_slice(&mut self, items: &[T])
        requires { length (held self.old) + length items.now ≤ N }
        ensures { held self.new ≡ held self.old ++ items.now }
    {
        let end = self.count + items.len();
        let all = &mut self.items[..];
        all[self.count..end].copy_from_slice(items);
        self.count = end;
    }
}
