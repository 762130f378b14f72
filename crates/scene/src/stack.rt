//! A stack in a room of fixed size.
ghost use Rattle.std.specs.Prelude.{◌≡◌, ◌+◌, ◌<◌, ◌≤◌, length, take, slice_set};

/// Items one on another, the last on top: the first `height` of a row of `N`, on no heap. It is
/// copied as a scene is. That the height is in the row is said where a stack is held.
#[derive(Clone, Copy, Drop)]
pub struct Stack<T, const N: usize> {
    pub(crate) items: [T; N],
    pub(crate) height: usize,
}

impl<T: Copy, const N: usize> Stack<T, N> {
    /// A stack of no items. Its room is filled with `blank`.
    pub(crate) fn new(blank: T) -> Stack<T, N>
        ensures { result.height ≡ 0 }
    {
        Stack {
            items: [blank; N],
            height: 0,
        }
    }

    /// The items, the last on top.
    pub(crate) fn as_slice(&self) -> &[T]
        requires { self.now.height ≤ N }
        ensures { result.now ≡ take self.now.height self.now.items }
    {
        &self.items[..self.height]
    }

    /// Puts an item on top.
    pub(crate) fn push(&mut self, item: T)
        requires { self.old.height < N }
        ensures put { self.new.items ≡ slice_set self.old.items self.old.height item }
        ensures counted { self.new.height ≡ self.old.height + 1 }
    {
        self.items[self.height] = item;
        self.height += 1;
    }

    /// Takes so many items off the top.
    pub(crate) fn take_off(&mut self, taken: usize)
        requires { taken ≤ self.old.height }
        ensures kept { self.new.items ≡ self.old.items }
        ensures counted { self.new.height + taken ≡ self.old.height }
    {
        self.height -= taken;
    }
}
