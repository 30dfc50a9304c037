// The bytes of a rule file, and how far they are read.
ghost use Rattle.std.specs.Prelude.{◌≤◌, length};

mod ends;
mod numbers;
mod parts;

pub use parts::Production;
use std::alloc::Global;

/// The bytes of a file, the offset of the first that is not read yet, and where what is read is kept.
#[derive(Drop)]
pub struct Reader<'a> {
    src: &'a [u8],
    pos: usize,
    alloc: Global,
    ghost within: { pos ≤ length src.now },
}
