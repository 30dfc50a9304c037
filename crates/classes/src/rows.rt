//! Rows that are linked.

ghost use Rattle.std.specs.Prelude.{◌≡◌, ◌<◌, length};
ghost use Rattle.terms.specs.Answers.{Answers};
ghost use Rattle.classes.specs.Rows.{Restricted, Linkable, standing_at};

use crate::row::ClassRow;
use contents::content::Content;

/// Whether `a` stands below `b` among the rows: by its rank, and among equals by its place.
pub(crate) fn is_below<C>(rows: &[ClassRow<C>], a: u8, b: u8) -> bool
    requires first { a < length rows.now }
    requires second { b < length rows.now }
    ensures { Answers result (standing_at rows.now a < standing_at rows.now b) }
{
    (rows[a as usize].rank, a) < (rows[b as usize].rank, b)
}

/// Puts the root `lower` below the root `upper`, whose class then holds `content`.
pub(crate) fn link<C: Content>(rows: &mut [ClassRow<C>], lower: u8, upper: u8, content: C)
    requires { Linkable C.Content.holds rows.old lower upper content }
    ensures { Restricted C.Content.holds rows.old (λ v. v lower ≡ v upper) rows.new }
{
    let beyond = rows[lower as usize].rank.saturating_add(1);
    let rank = rows[upper as usize].rank.max(beyond);
    rows[lower as usize].parent = upper;
    rows[upper as usize] = ClassRow {
        parent: upper,
        rank,
        content,
    };
}
