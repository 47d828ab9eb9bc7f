ghost use Rattle.std.specs.Prelude.{◌≡◌, ◌<◌, ◌≤◌, ◌+◌, ◌++◌, [], length, insert, vec_capacity};

/// Puts the item in before this place, where there is memory for it. A move of the items behind it.
pub fn insert_within<T: Drop>(items: &mut Vec<T>, place: usize, item: T)
    requires within { place ≤ length items.old.items }
    requires memory { length items.old.items < vec_capacity items.old }
    ensures items { items.new.items ≡ insert items.old.items place item }
    ensures capacity { vec_capacity items.new ≡ vec_capacity items.old }
{
    let _ = items.insert(place, item);
}

/// Moves the items into this memory, which is empty and enough for them. A move of the items.
pub fn move_within<T: Drop>(items: &mut Vec<T>, memory: Vec<T>)
    requires empty { memory.items ≡ [] }
    requires enough { length items.old.items ≤ vec_capacity memory }
    ensures items { items.new.items ≡ items.old.items }
    ensures capacity { vec_capacity memory ≤ vec_capacity items.new }
{
    let mut memory = memory;
    let _ = memory.append(items);
    *items = memory;
}
