// Where reading begins and ends.
ghost use Rattle.std.specs.Prelude.{◌≡◌, ◌≤◌, length};
ghost use Rattle.rulereader.specs.Ends.{AtEnd};

use crate::reader::Reader;
use std::alloc::Global;

impl<'a> Reader<'a> {
    /// A reader that has passed the four bytes at the start of a file.
    pub(crate) fn after_mark(src: &'a [u8], alloc: Global) -> Reader<'a>
        requires { 4 ≤ length src.now }
        ensures place { result.pos ≡ 4 }
        ensures bytes { result.src.now ≡ src.now }
    {
        Reader { src, pos: 4, alloc }
    }

    /// The offset of the first byte that is left over, or none.
    pub(crate) fn place_left(&self) -> Option<usize>
        ensures { AtEnd self.now result }
    {
        (self.pos < self.src.len()).then_some(self.pos)
    }
}
