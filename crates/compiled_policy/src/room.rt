ghost use Rattle.std.specs.Prelude.{◌≡◌, ◌≤◌, length, replicate, vec_capacity};

/// Becomes so many equal items, in the room that there is.
pub(crate) fn refill<T: Copy>(items: &mut Vec<T>, count: usize, item: T)
    requires { count ≤ vec_capacity items.old }
    ensures items { items.new.items ≡ replicate count item }
    ensures room { vec_capacity items.old ≤ vec_capacity items.new }
{
    items.clear();
    match items.resize(count, item) {
        Ok(()) => {}
        Err(_) => unreachable!(),
    }
}

/// Becomes equal to other items, in the room that there is.
pub(crate) fn replace<T: Copy>(items: &mut Vec<T>, others: &[T])
    requires { length others.now ≤ vec_capacity items.old }
    ensures items { items.new.items ≡ others.now }
    ensures room { vec_capacity items.old ≤ vec_capacity items.new }
{
    items.clear();
    match items.extend_from_slice(others) {
        Ok(()) => {}
        Err(_) => unreachable!(),
    }
}
