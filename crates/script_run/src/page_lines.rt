//! The lines that show restored pages.

ghost use Rattle.std.specs.Prelude.{◌≡◌, IfOk};
ghost use Rattle.std.specs.String.{string_bytes};
ghost use Rattle.script_run.specs.PageLines.{page_lines};

use file_view::{Form, put_page};
use page_core::Page;
use std::alloc::{AllocError, Global};

/// The lines of these pages, each with a line feed.
pub(crate) fn page_lines(alloc: Global, pages: &[Page]) -> Result<String, AllocError>
    ensures { IfOk result (λ text. string_bytes text ≡ page_lines pages.now) }
{
    let mut text = String::new(alloc);
    for page in pages {
        put_page(&mut text, Form::Words, page)?;
    }
    Ok(text)
}
