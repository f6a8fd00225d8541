//! The first line of an open database.

ghost use Rattle.std.specs.Prelude.{◌≡◌};
ghost use Rattle.database_opening.specs.FirstLine.{plural_of};

use page_core::Lsn;
use std::fmt;

/// What an open database tells first.
#[derive(Clone, Copy)]
pub enum FirstLine {
    /// It is a new one, of so many pages.
    New(u32),
    /// It was restarted.
    Restarted {
        /// Where the front of the log's file ends.
        cut: Lsn,
        /// How many transactions were open there.
        taken_back: usize,
        /// How many records the log has now.
        records: usize,
    },
}

impl fmt::Display for FirstLine {
    ghost use Rattle.std.specs.Prelude.{Some};
    ghost use Rattle.database_opening.specs.FirstLine.{line_of_first};

    ghost output = { λ line. Some (line_of_first line) };

    fn fmt<W: fmt::Write>(&self, f: &mut fmt::Formatter<W>) -> fmt::Result {
        let (at, back, count) = match self {
            FirstLine::New(pages) => {
                let some = plural(*pages as usize);
                return write!(f, "new: {pages} page{some}");
            }
            FirstLine::Restarted {
                cut,
                taken_back,
                records,
            } => (cut.0, *taken_back, *records),
        };
        let (some, all) = (plural(back), plural(count));
        write!(
            f,
            "restarted: log cut at {at}, {back} transaction{some} taken back, {count} record{all}"
        )
    }
}

/// The end of a noun of which there are so many.
fn plural(count: usize) -> &'static str
    ensures { result.now ≡ plural_of count }
{
    if count == 1 { "" } else { "s" }
}
