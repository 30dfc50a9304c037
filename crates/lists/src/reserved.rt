//! A vector whose memory is there from the start.

ghost use Rattle.lists.specs.Rooms.{Roomy};

mod methods;

/// At most `N` items.
#[derive(Drop)]
pub struct Reserved<T, const N: usize> {
    items: Vec<T>,
    ghost roomy: { Roomy N items },
}
