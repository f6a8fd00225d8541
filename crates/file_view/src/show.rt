//! Shows a file.

ghost use Rattle.std.specs.Prelude.{◌≡◌, ◌++◌, OnOk, codes};
ghost use Rattle.std.specs.String.{string_bytes};
ghost use Rattle.file_view.specs.HeadText.{head_text};

use crate::copy_header::read_copy_header;
use crate::fault::ViewFault;
use crate::head::{Head, HeadJson};
use crate::kind::{FileKind, kind_of};
use crate::lines::{Form, Lines};
use crate::page_row::put_page;
use crate::record_line::put_record;
use crate::wanted::Wanted;
use copy_vault::{ArchiveFault, read_archive};
use log_prefix::read_front;
use log_records::{HEADER_BYTES, RECORD_BYTES, log_header};
use log_store::decode_master;
use page_core::{PAGE_BYTES, Page};
use std::alloc::{AllocError, Global};
use std::io::Write;

/// Shows the bytes of a file: a line that says what it is, and then what it has. A file that is
/// wrong is shown as far as it is right, and the fault is answered then. `BadHeader` comes where
/// the file begins like none that is known here, or is no master record; the faults of a log are
/// those of `read_log`, and those of an archive those of `read_archive`; `BadPage` is of a volume.
/// `WriteFault` comes where the writer fails, and `OutOfMemory` where room is refused.
pub fn show_file<W: Write>(
    alloc: Global,
    bytes: &[u8],
    wanted: &Wanted,
    form: Form,
    writer: &mut W,
) -> Result<(), ViewFault> {
    let mut lines = Lines::new(alloc, writer);
    let shown = match kind_of(bytes) {
        Some(FileKind::Log) => show_log(alloc, bytes, wanted, form, &mut lines),
        Some(FileKind::Master) => show_master(bytes, form, &mut lines),
        Some(FileKind::Archive) => show_archive(alloc, bytes, wanted, form, &mut lines),
        Some(FileKind::Volume) => show_volume(bytes, wanted, form, &mut lines),
        None => Err(ViewFault::BadHeader),
    };
    // Behind a fault of the writer nothing more goes out.
    if let Err(ViewFault::WriteFault(_)) = shown {
        return shown;
    }
    lines.write()?;
    shown
}

/// Puts the line behind a text that says what a file is.
pub(crate) fn put_head(text: &mut String, form: Form, head: Head) -> Result<(), AllocError>
    ensures { OnOk result
        (string_bytes text.new ≡ string_bytes text.old ++ (head_text form head ++ codes "\n")) }
{
    match form {
        Form::Words => writeln!(text, "{head}"),
        Form::Json => {
            let head = HeadJson(head);
            writeln!(text, "{head}")
        }
    }
}

fn show_log<W: Write>(
    alloc: Global,
    bytes: &[u8],
    wanted: &Wanted,
    form: Form,
    lines: &mut Lines<'_, W>,
) -> Result<(), ViewFault> {
    let Some(header) = log_header(bytes) else {
        return Err(ViewFault::BadHeader);
    };
    let mut input = bytes;
    let (log, cut) = read_front(alloc, &mut input)?.into_parts();
    let head = Head::Log {
        format: header.format,
        pages: log.page_count(),
        records: (bytes.len().saturating_sub(HEADER_BYTES) / RECORD_BYTES) as u64,
    };
    put_head(&mut lines.text, form, head)?;
    for record in log.records() {
        if wanted.takes(record) {
            put_record(&mut lines.text, form, record)?;
            lines.pass()?;
        }
    }
    match cut {
        Some(cut) => Err(ViewFault::Log(cut.fault())),
        None => Ok(()),
    }
}

fn show_master<W: Write>(
    bytes: &[u8],
    form: Form,
    lines: &mut Lines<'_, W>,
) -> Result<(), ViewFault> {
    match decode_master(bytes) {
        Some(master) => Ok(put_head(&mut lines.text, form, Head::Master(master))?),
        None => Err(ViewFault::BadHeader),
    }
}

/// The pages before the fault, if there is one, are those of the archive.
fn show_archive<W: Write>(
    alloc: Global,
    bytes: &[u8],
    wanted: &Wanted,
    form: Form,
    lines: &mut Lines<'_, W>,
) -> Result<(), ViewFault> {
    let header = read_copy_header(alloc, bytes)?;
    let done = check_archive(alloc, bytes);
    let right = right_before(&done, bytes.len());
    put_head(&mut lines.text, form, Head::Archive(header))?;
    let right = &bytes[..right.min(bytes.len())];
    show_taken(right, header.taken, wanted, form, lines)?;
    Ok(done?)
}

/// Whether these bytes are an archive.
fn check_archive(alloc: Global, bytes: &[u8]) -> Result<(), ArchiveFault> {
    let mut input = bytes;
    read_archive(alloc, &mut input)?;
    Ok(())
}

/// How many of so many bytes are right before the fault.
fn right_before(done: &Result<(), ArchiveFault>, count: usize) -> usize {
    match done {
        Err(ArchiveFault::BadArchive(at)) => *at as usize,
        _ => count,
    }
}

/// Shows the pages behind the header of an archive, at most so many.
fn show_taken<W: Write>(
    bytes: &[u8],
    taken: u32,
    wanted: &Wanted,
    form: Form,
    lines: &mut Lines<'_, W>,
) -> Result<(), ViewFault> {
    if bytes.len() < HEADER_BYTES {
        return Ok(());
    }
    for page in bytes[HEADER_BYTES..]
        .chunks_exact(PAGE_BYTES)
        .take(taken as usize)
    {
        show_page(page, wanted, form, lines)?;
    }
    Ok(())
}

/// Shows a page that these bytes spell.
fn show_page<W: Write>(
    bytes: &[u8],
    wanted: &Wanted,
    form: Form,
    lines: &mut Lines<'_, W>,
) -> Result<(), ViewFault> {
    if let Ok(page) = Page::from_bytes(bytes) {
        if wanted.takes_page(page.number) {
            put_page(&mut lines.text, form, &page)?;
            lines.pass()?;
        }
    }
    Ok(())
}

fn show_volume<W: Write>(
    bytes: &[u8],
    wanted: &Wanted,
    form: Form,
    lines: &mut Lines<'_, W>,
) -> Result<(), ViewFault> {
    let head = Head::Volume {
        pages: (bytes.len() / PAGE_BYTES) as u64,
    };
    put_head(&mut lines.text, form, head)?;
    for (place, bytes) in bytes.chunks(PAGE_BYTES).enumerate() {
        let fault = ViewFault::BadPage(place as u64 * PAGE_BYTES as u64);
        let Ok(page) = Page::from_bytes(bytes) else {
            return Err(fault);
        };
        if page.number.0 as usize != place {
            return Err(fault);
        }
        if wanted.takes_page(page.number) && page != Page::formatted(page.number) {
            put_page(&mut lines.text, form, &page)?;
            lines.pass()?;
        }
    }
    Ok(())
}
