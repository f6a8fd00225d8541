//! Audits of chains whose numbers were changed.

use crate::bytes::{FORMATS, FULL, Head, archive, grown_log, log, name_format, next};
use copy_audit::{Sound, Unsound, audit};
use copy_vault::CopyId;
use page_core::{Lsn, PageNo};
use std::alloc::Global;
use std::process::Abort;
use std::test::Fail;

/// What an audit says of the archives of these headers, for a log over so many pages. Page 0 has
/// this LSN and this number in slot 0 in each archive that took it. These characters name the
/// format of the log and that of the archives.
fn audited(
    alloc: Global,
    pages: u64,
    members: &[(Head, u64, u64)],
    formats: (u8, u8),
) -> Result<Result<Sound, Unsound>, Fail> {
    audited_by(alloc, log(alloc, pages)?, members, formats)
}

/// What an audit says of such archives for this log.
fn audited_by(
    alloc: Global,
    mut whole: Vec<u8>,
    members: &[(Head, u64, u64)],
    (of_log, of_archives): (u8, u8),
) -> Result<Result<Sound, Unsound>, Fail> {
    name_format(&mut whole, of_log);
    let mut archives = Vec::new(alloc);
    for (head, lsn, slot) in members {
        let mut bytes = archive(alloc, *head, *lsn, *slot)?;
        name_format(&mut bytes, of_archives);
        archives.push(bytes)?;
    }
    let mut readers = Vec::new(alloc);
    for bytes in &archives {
        readers.push(bytes.as_slice())?;
    }
    let found = audit(alloc, &mut whole.as_slice(), &mut readers);
    drop(readers);
    drop(archives);
    Ok(found)
}

/// Asserts what an audit says of these members, for a log of one page, where all files are of one
/// format.
fn assert_audit(
    rt: &impl Abort,
    alloc: Global,
    members: &[(Head, u64, u64)],
    wanted: Result<Sound, Unsound>,
) -> Result<(), Fail> {
    for format in &FORMATS {
        let found = audited(alloc, 1, members, (*format, *format))?;
        assert_eq!(rt; found, wanted, "{format}");
    }
    Ok(())
}

/// Asserts what an audit says of the full copy alone, with this checkpoint and redo point, and with
/// this LSN and slot.
fn assert_full(
    rt: &impl Abort,
    alloc: Global,
    (begin, redo): (u64, u64),
    (lsn, slot): (u64, u64),
    wanted: Result<Sound, Unsound>,
) -> Result<(), Fail> {
    let head = Head {
        begin,
        redo,
        ..FULL
    };
    assert_audit(rt, alloc, &[(head, lsn, slot)], wanted)
}

/// An unsound page 0 of this copy.
fn unsound(copy: u32) -> Result<Sound, Unsound> {
    Err(Unsound::Unsound(CopyId(copy), PageNo(0)))
}

/// This copy does not follow those before it.
fn broken(copy: u32) -> Result<Sound, Unsound> {
    Err(Unsound::ChainBroken(CopyId(copy)))
}

#[test]
fn a_full_copy_is_sound(rt: HostRuntime) -> Result<(), Fail> {
    let alloc = rt.alloc();
    assert_full(&rt, alloc, (192, 128), (0, 0), Ok(Sound))?;
    assert_full(&rt, alloc, (192, 128), (128, 5), Ok(Sound))
}

#[test]
fn a_full_copy_is_not_sound(rt: HostRuntime) -> Result<(), Fail> {
    let alloc = rt.alloc();
    assert_full(&rt, alloc, (192, 192), (0, 0), unsound(1))?;
    assert_full(&rt, alloc, (192, 128), (192, 0), unsound(1))?;
    assert_full(&rt, alloc, (192, 128), (128, 6), unsound(1))
}

#[test]
fn a_full_copy_reaches_past_the_log(rt: HostRuntime) -> Result<(), Fail> {
    let alloc = rt.alloc();
    let beyond = Err(Unsound::PageBeyondLog(PageNo(0)));
    assert_full(&rt, alloc, (512, 512), (0, 0), Err(Unsound::RedoBeyondLog))?;
    assert_full(&rt, alloc, (192, 128), (512, 0), beyond)
}

#[test]
fn a_log_of_another_volume_is_refused(rt: HostRuntime) -> Result<(), Fail> {
    let alloc = rt.alloc();
    for format in &FORMATS {
        let found = audited(alloc, 2, &[(FULL, 0, 0)], (*format, *format))?;
        assert_eq!(rt; found, broken(1), "{format}");
        let found = audited(alloc, 0, &[(FULL, 0, 0)], (*format, *format))?;
        assert_eq!(rt; found, Err(Unsound::BadHeader), "{format}");
    }
    Ok(())
}

#[test]
fn a_log_and_its_archives_may_have_different_formats(rt: HostRuntime) -> Result<(), Fail> {
    for formats in [(b'1', b'2'), (b'2', b'1')] {
        let found = audited(rt.alloc(), 1, &[(FULL, 128, 5)], formats)?;
        assert_eq!(rt; found, Ok(Sound), "{formats:?}");
    }
    Ok(())
}

#[test]
fn a_format_that_there_is_not_is_refused(rt: HostRuntime) -> Result<(), Fail> {
    for none in [b'0', b'3'] {
        let found = audited(rt.alloc(), 1, &[(FULL, 0, 0)], (none, b'2'))?;
        assert_eq!(rt; found, Err(Unsound::BadHeader), "{none}");
        let found = audited(rt.alloc(), 1, &[(FULL, 0, 0)], (b'2', none))?;
        assert_eq!(rt; found, Err(Unsound::BadArchive(0)), "{none}");
    }
    Ok(())
}

#[test]
fn archives_follow_one_another(rt: HostRuntime) -> Result<(), Fail> {
    let alloc = rt.alloc();
    let one = (FULL, 0, 0);
    let two = (next(2, 128), 0, 0);
    let three = (next(3, 128), 0, 0);
    assert_audit(&rt, alloc, &[one, two, three], Ok(Sound))?;
    assert_audit(&rt, alloc, &[two, one], broken(2))?;
    assert_audit(&rt, alloc, &[one, three], broken(3))?;
    assert_audit(&rt, alloc, &[], broken(0))
}

#[test]
fn an_empty_file_is_no_archive(rt: HostRuntime) -> Result<(), Fail> {
    let whole = log(rt.alloc(), 1)?;
    let none: &[u8] = &[];
    let found = audit(rt.alloc(), &mut whole.as_slice(), &mut [none]);
    assert_eq!(rt; found, Err(Unsound::BadArchive(0)));
    Ok(())
}

#[test]
fn the_first_member_that_fails_is_named(rt: HostRuntime) -> Result<(), Fail> {
    let alloc = rt.alloc();
    let one = (FULL, 0, 0);
    let late = (next(2, 192), 0, 0);
    let early = (next(2, 128), 0, 0);
    let third = (next(3, 192), 0, 0);
    // A member that keeps the page is looked at too: its own redo point is past a change.
    assert_audit(&rt, alloc, &[one, late, third], unsound(2))?;
    assert_audit(&rt, alloc, &[one, early, third], unsound(3))
}

/// An incremental copy that took page 0.
fn taken(id: u32, redo: u64) -> Head {
    Head {
        taken: 1,
        ..next(id, redo)
    }
}

#[test]
fn a_later_copy_may_have_an_older_page(rt: HostRuntime) -> Result<(), Fail> {
    let alloc = rt.alloc();
    let one = (FULL, 128, 5);
    let older = (taken(2, 128), 0, 0);
    let spoiled = (taken(2, 128), 0, 1);
    let three = (taken(3, 192), 128, 5);
    assert_audit(&rt, alloc, &[one, older, three], Ok(Sound))?;
    // The second copy's page is not the chain's any more, but it is a member's.
    assert_audit(&rt, alloc, &[one, spoiled, three], unsound(2))
}

/// An incremental copy of so many pages, which began behind the growth of the volume.
fn behind_growth(pages: u32) -> Head {
    Head {
        pages,
        begin: 576,
        ..next(2, 448)
    }
}

/// Asserts what an audit says of these members, for a log that grows, in these formats.
fn assert_grown(
    rt: &impl Abort,
    alloc: Global,
    members: &[(Head, u64, u64)],
    formats: (u8, u8),
    wanted: Result<Sound, Unsound>,
) -> Result<(), Fail> {
    let found = audited_by(alloc, grown_log(alloc)?, members, formats)?;
    assert_eq!(rt; found, wanted, "{formats:?}");
    Ok(())
}

/// A copy has as many pages as there were below the LSN of its checkpoint. It may be of the first
/// format, and the log may not.
#[test]
fn copies_of_a_volume_that_grew_are_audited(rt: HostRuntime) -> Result<(), Fail> {
    let alloc = rt.alloc();
    let one = (FULL, 128, 5);
    let wide = Head {
        pages: 2,
        taken: 2,
        ..FULL
    };
    let early = Head {
        begin: 512,
        ..behind_growth(2)
    };
    for format in FORMATS {
        let formats = (b'2', format);
        assert_grown(&rt, alloc, &[one], formats, Ok(Sound))?;
        assert_grown(&rt, alloc, &[(wide, 128, 5)], formats, broken(1))?;
        let two = [one, (behind_growth(2), 0, 0)];
        assert_grown(&rt, alloc, &two, formats, Ok(Sound))?;
        let two = [one, (behind_growth(1), 0, 0)];
        assert_grown(&rt, alloc, &two, formats, broken(2))?;
        assert_grown(&rt, alloc, &[one, (early, 0, 0)], formats, broken(2))?;
    }
    let no_record = Err(Unsound::BadRecord(Lsn(512)));
    assert_grown(&rt, alloc, &[one], (b'1', b'2'), no_record)
}

#[test]
fn each_refusal_prints_its_line(rt: HostRuntime) -> Result<(), Fail> {
    let unsound = Unsound::Unsound(CopyId(1), PageNo(0));
    let line = format!(in rt.alloc(); "{unsound}")?;
    assert_eq!(rt; line.as_str(), "E41 Unsound 1 0");
    let beyond = Unsound::PageBeyondLog(PageNo(7));
    let line = format!(in rt.alloc(); "{beyond}")?;
    assert_eq!(rt; line.as_str(), "E40 PageBeyondLog 7");
    Ok(())
}
