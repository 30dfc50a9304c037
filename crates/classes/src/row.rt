//! The row of a variable.

/// A variable's row: a row nearer to its class's root, or itself at the root; a rank, which no row below exceeds; and
/// what the class holds, which only the root's row says.
// Rows name rows by place, in one `Vec`: many share a parent, and nothing is allocated once a forest is made.
#[derive(Clone, Copy)]
pub struct ClassRow<C> {
    pub parent: u8,
    pub rank: u8,
    pub content: C,
}
