//! Items one over the other, as windows are.

ghost use Rattle.std.specs.Prelude.{◌≡◌, ◌<◌, length, slice_get, remove, vec_capacity};
ghost use Rattle.tv_group.specs.Stack.{lowered, raised_at};

fn bring_to_front<T>(items: &mut [T], place: usize)
    requires { place < length items.old }
    ensures { items.new ≡ raised_at items.old place }
{
    items[..=place].rotate_left(place);
}

fn send_to_back<T>(items: &mut [T], place: usize)
    requires { place < length items.old }
    ensures { items.new ≡ lowered items.old place }
{
    items[place..].rotate_left(1);
}

/// Items from front to back. It takes no memory: its calls keep the room that its items had.
#[derive(Drop)]
pub struct Stack<T> {
    /// The front one first.
    pub items: Vec<T>,
}

impl<T> Stack<T> {
    /// Makes a stack of the items in their order.
    pub fn new(items: Vec<T>) -> Stack<T>
        ensures items { result.items.items ≡ items.items }
        ensures room { vec_capacity result.items ≡ vec_capacity items }
    {
        Stack { items }
    }

    /// Removes the item at a place, and no other. Returns it, or `None` where there is no such place.
    pub fn remove(&mut self, place: usize) -> Option<T>
        ensures item { result ≡ slice_get self.old.items.items place }
        ensures others { self.new.items.items ≡ remove self.old.items.items place }
        ensures room { vec_capacity self.new.items ≡ vec_capacity self.old.items }
    {
        if place < self.items.len() {
            Some(self.items.remove(place))
        } else {
            None
        }
    }

    /// Brings the item at a place to the front.
    pub fn raise(&mut self, place: usize)
        requires { place < length self.old.items.items }
        ensures raised { self.new.items.items ≡ raised_at self.old.items.items place }
        ensures room { vec_capacity self.new.items ≡ vec_capacity self.old.items }
    {
        bring_to_front(&mut self.items, place);
    }

    /// Sends the item at a place to the back.
    pub fn lower(&mut self, place: usize)
        requires { place < length self.old.items.items }
        ensures lowered { self.new.items.items ≡ lowered self.old.items.items place }
        ensures room { vec_capacity self.new.items ≡ vec_capacity self.old.items }
    {
        send_to_back(&mut self.items, place);
    }
}
