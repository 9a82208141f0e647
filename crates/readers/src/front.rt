// A slice that is written from the front on.
ghost use Rattle.std.specs.Prelude.{◌≡◌, List, [], ◌∷◌, ◌++◌};
ghost use Rattle.readers.specs.Fronts.{Written};

// Puts an item behind the first `count`, and answers how many stand there then. Where no place is left
// nothing changes.
pub(crate) fn put<T: Copy>(items: &mut [T], count: usize, item: T) -> usize
    ensures { (before ws : List T) → Written before items.old count ws → Written before items.new result (ws ++ item ∷ []) }
{
    if count < items.len() {
        items[count] = item;
        count + 1
    } else {
        count
    }
}
