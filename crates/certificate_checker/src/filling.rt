ghost use Rattle.std.specs.Prelude.{◌≡◌, ◌≤◌, replicate, vec_capacity};

/// So many of an item, in a list that has room for them.
pub(crate) fn refill<T: Copy + Drop>(items: &mut Vec<T>, count: usize, item: T)
    requires { count ≤ vec_capacity items.old }
    ensures items { items.new.items ≡ replicate count item }
    ensures room { vec_capacity items.new ≡ vec_capacity items.old }
{
    items.clear();
    for _filled in 0..count {
        items.push_reserved(item);
    }
}
