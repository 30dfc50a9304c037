// A buffer that is written from its start.
ghost use Rattle.std.specs.Prelude.{◌≤◌, length};

mod numbers;

/// A buffer, and how many of its bytes are written.
#[derive(Drop)]
pub struct Writer<'a> {
    pub dst: &'a mut [u8],
    pub pos: usize,
    ghost within: { pos ≤ length dst.now },
}
