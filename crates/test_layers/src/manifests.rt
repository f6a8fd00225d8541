//! Manifests, and sums of bytes that go through readers and writers.

use crate::asserts::{same, same_at};
use manifest::{
    CheckedReader, DatabaseName, Extent, FileSum, LineFault, Manifest, ManifestFault, NoteFault,
    Sum, SummingReader, SummingWriter, Sums, decode, sum_rest,
};
use std::alloc::Global;
use std::io::{Read, Write};
use std::process::Abort;
use std::test::Fail;

// A manifest as `sha256sum -c` reads it. The sums are of the four bytes `test`.
const EXAMPLE: &str = "# imgcopy manifest 1 database 00112233445566778899aabbccddeeff
# whole 16
9f86d081884c7d659a2feaa0c55ad015a3bf4f1b2b0b822cd15d6c15b0f00a08  master
# first 4096 9f86d081884c7d659a2feaa0c55ad015a3bf4f1b2b0b822cd15d6c15b0f00a08  log
";

// The sums that Python's hashlib has of these texts, the last one of 1,280 bytes from 0 to 255.
const OF_NOTHING: &str = "e3b0c44298fc1c149afbf4c8996fb92427ae41e4649b934ca495991b7852b855";

const OF_ABC: &str = "ba7816bf8f01cfea414140de5dae2223b00361a396177a9cb410ff61f20015ad";

const OF_TEST: &str = "9f86d081884c7d659a2feaa0c55ad015a3bf4f1b2b0b822cd15d6c15b0f00a08";

const OF_ALL_BYTES: &str = "d414b085826eb06778483ba35564dc849e643359f69ed9747878ba6e54985bed";

const DATABASE: DatabaseName = DatabaseName([
    0x00, 0x11, 0x22, 0x33, 0x44, 0x55, 0x66, 0x77, 0x88, 0x99, 0xaa, 0xbb, 0xcc, 0xdd, 0xee, 0xff,
]);

fn sum_of(bytes: &[u8]) -> Sum {
    let mut sums = Sums::new();
    sums.update(bytes);
    sums.finish().0
}

fn whole(bytes: u64) -> FileSum {
    FileSum {
        extent: Extent::Whole,
        bytes,
        sum: sum_of(b"test"),
    }
}

fn first(bytes: u64) -> FileSum {
    FileSum {
        extent: Extent::First,
        bytes,
        sum: sum_of(b"test"),
    }
}

fn example(alloc: Global) -> Result<Manifest, Fail> {
    let mut manifest = Manifest::new(alloc, DATABASE);
    manifest.note("master", whole(16))?;
    manifest.note("log", first(4096))?;
    Ok(manifest)
}

fn assert_sum(rt: &impl Abort, alloc: Global, sum: &Sum, wanted: &str) -> Result<(), Fail> {
    let printed = format!(in alloc; "{sum}")?;
    same(rt, &printed.as_str(), &wanted);
    Ok(())
}

/// Asserts that what is read of a text, if anything is, has just this text.
fn assert_exact(rt: &impl Abort, alloc: Global, bytes: &[u8], place: usize) -> Result<(), Fail> {
    if let Ok(manifest) = decode(alloc, bytes) {
        same_at(rt, &manifest.to_text()?.as_bytes(), &bytes, &place);
    }
    Ok(())
}

#[test]
fn a_manifest_has_this_text(rt: HostRuntime) -> Result<(), Fail> {
    let alloc = rt.alloc();
    let manifest = example(alloc)?;
    same(&rt, &manifest.to_text()?.as_str(), &EXAMPLE);
    let read = decode(alloc, EXAMPLE.as_bytes())?;
    same(&rt, &read.database(), &DATABASE);
    same(&rt, &read.entry("master"), &Some(whole(16)));
    same(&rt, &read.entry("log"), &Some(first(4096)));
    same(&rt, &read.entry("lo"), &None);
    same(&rt, &read.to_text()?.as_str(), &EXAMPLE);
    Ok(())
}

/// The names of a manifest's files in their order, a blank behind each.
fn names_in(alloc: Global, manifest: &Manifest) -> Result<String, Fail> {
    let mut names = String::new(alloc);
    for entry in manifest.entries() {
        names.push_str(entry.name())?;
        names.push(' ')?;
    }
    Ok(names)
}

#[test]
fn an_entry_keeps_its_place(rt: HostRuntime) -> Result<(), Fail> {
    let mut manifest = example(rt.alloc())?;
    manifest.note("master", whole(17))?;
    same(
        &rt,
        &names_in(rt.alloc(), &manifest)?.as_str(),
        &"master log ",
    );
    same(&rt, &manifest.entry("master"), &Some(whole(17)));
    manifest.remove("master");
    same(&rt, &manifest.entry("master"), &None);
    same(&rt, &manifest.entry("log"), &Some(first(4096)));
    manifest.note("master", whole(16))?;
    same(
        &rt,
        &names_in(rt.alloc(), &manifest)?.as_str(),
        &"log master ",
    );
    Ok(())
}

#[test]
fn an_entry_is_refused(rt: HostRuntime) -> Result<(), Fail> {
    let mut manifest = example(rt.alloc())?;
    for name in ["", "a b", "a/b", "a\\b", "a\n", "\u{7f}", "ä"] {
        let refused = manifest.note(name, whole(1));
        same_at(&rt, &refused, &Err(NoteFault::BadName), &name);
    }
    let name = "n".repeat(rt.alloc(), 255)?;
    same(&rt, &manifest.note(name.as_str(), whole(1)), &Ok(()));
    let name = "n".repeat(rt.alloc(), 256)?;
    same(
        &rt,
        &manifest.note(name.as_str(), whole(1)),
        &Err(NoteFault::BadName),
    );
    same(
        &rt,
        &manifest.note("log", whole(1 << 63)),
        &Err(NoteFault::TooLong),
    );
    same(&rt, &manifest.entry("log"), &Some(first(4096)));
    same(&rt, &manifest.note("log", whole((1 << 63) - 1)), &Ok(()));
    let text = manifest.to_text()?;
    same(
        &rt,
        &decode(rt.alloc(), text.as_bytes())?.entry("log"),
        &Some(whole((1 << 63) - 1)),
    );
    Ok(())
}

#[test]
fn a_bad_line_is_told(rt: HostRuntime) -> Result<(), Fail> {
    let rows = [
        ("manifest 1", "manifest 2", 1, LineFault::Head),
        ("aabb", "AABB", 1, LineFault::Head),
        ("# whole 16", "# whole 016", 2, LineFault::Length),
        ("# whole 16", "# whole +16", 2, LineFault::Length),
        (
            "# whole 16",
            "# whole 9223372036854775808",
            2,
            LineFault::Length,
        ),
        ("# whole", "# all", 2, LineFault::Length),
        ("08  master", "0  master", 3, LineFault::Sum),
        ("08  master", "08 master", 3, LineFault::Sum),
        ("master", "mas/ter", 3, LineFault::Sum),
        ("  log", "  ", 4, LineFault::Sum),
        ("  log", "  master", 4, LineFault::Twice),
        ("# first 4096 ", "# first 4096\n", 4, LineFault::Length),
        ("  log\n", "  log", 4, LineFault::Sum),
        ("  log\n", "  log\n\n", 5, LineFault::Length),
    ];
    for (old, new, line, why) in rows {
        let text = EXAMPLE.replace(rt.alloc(), old, new)?;
        let fault = decode(rt.alloc(), text.as_bytes()).err();
        same_at(&rt, &fault, &Some(ManifestFault::BadLine(line, why)), &new);
    }
    let fault = ManifestFault::BadLine(4, LineFault::Twice);
    let printed = format!(in rt.alloc(); "{fault}")?;
    same(&rt, &printed.as_str(), &"line 4: a name stands twice");
    Ok(())
}

#[test]
fn a_manifest_that_is_cut_or_flipped_is_none_or_another(rt: HostRuntime) -> Result<(), Fail> {
    let alloc = rt.alloc();
    let text = EXAMPLE.as_bytes();
    for at in 0..text.len() {
        assert_exact(&rt, alloc, &text[..at], at)?;
        for bit in [1, 2, 4, 8, 16, 32, 64, 128] {
            let mut flipped = Vec::from_slice(alloc, text)?;
            flipped[at] ^= bit;
            assert_exact(&rt, alloc, &flipped, at)?;
        }
    }
    Ok(())
}

#[test]
fn sums_are_those_of_another_program(rt: HostRuntime) -> Result<(), Fail> {
    let alloc = rt.alloc();
    let mut sums = Sums::new();
    assert_sum(&rt, alloc, &sums.now().0, OF_NOTHING)?;
    sums.update(b"a");
    sums.update(b"");
    sums.update(b"bc");
    let (sum, count) = sums.now();
    assert_sum(&rt, alloc, &sum, OF_ABC)?;
    same(&rt, &count, &3);
    let mut all = Vec::new(alloc);
    for _ in 0..5 {
        for byte in 0..=u8::MAX {
            all.push(byte)?;
        }
    }
    assert_sum(&rt, alloc, &sum_of(&all), OF_ALL_BYTES)?;
    same(&rt, &whole(4).agrees(sum_of(b"test"), 4), &true);
    same(&rt, &whole(4).agrees(sum_of(b"test"), 5), &false);
    same(&rt, &whole(4).agrees(sum_of(b"tess"), 4), &false);
    Ok(())
}

#[test]
fn what_goes_through_is_summed(rt: HostRuntime) -> Result<(), Fail> {
    let alloc = rt.alloc();
    let mut source: &[u8] = b"testabc";
    let mut reader = SummingReader::new(&mut source);
    let mut four = [0; 4];
    reader.read_exact(&mut four)?;
    let (sum, count) = reader.finish();
    assert_sum(&rt, alloc, &sum, OF_TEST)?;
    same(&rt, &count, &4);
    same(&rt, &source, &b"abc".as_slice());
    let (sum, count) = sum_rest(&mut source, &mut [0; 2])?;
    assert_sum(&rt, alloc, &sum, OF_ABC)?;
    same(&rt, &count, &3);
    same(&rt, &sum_rest(&mut source, &mut [0; 2])?.1, &0);
    let mut written = Vec::new(alloc);
    let mut writer = SummingWriter::new(&mut written);
    writer.write_all(b"te")?;
    writer.write_all(b"st")?;
    writer.flush()?;
    let (sum, count) = writer.finish();
    assert_sum(&rt, alloc, &sum, OF_TEST)?;
    same(&rt, &count, &4);
    same(&rt, &written.as_slice(), &b"test".as_slice());
    Ok(())
}

#[test]
fn a_file_that_is_another_one_has_no_end(rt: HostRuntime) -> Result<(), Fail> {
    let mut room = [0; 3];
    let mut source: &[u8] = b"test";
    let mut reader = CheckedReader::new(&mut source, whole(4));
    same(&rt, &reader.read(&mut room)?, &3);
    same(&rt, &reader.read(&mut room)?, &1);
    same(&rt, &reader.read(&mut room)?, &0);
    let mut source: &[u8] = b"tesu";
    let mut reader = CheckedReader::new(&mut source, whole(4));
    same(&rt, &reader.read(&mut room)?, &3);
    same(&rt, &reader.read(&mut room)?, &1);
    same(&rt, &reader.read(&mut room).is_err(), &true);
    same(&rt, &reader.count(), &4);
    let mut source: &[u8] = b"testabc";
    let mut reader = CheckedReader::new(&mut source, first(4));
    same(&rt, &reader.read(&mut room)?, &3);
    same(&rt, &reader.read(&mut room)?, &3);
    same(&rt, &reader.read(&mut room)?, &1);
    same(&rt, &reader.read(&mut room)?, &0);
    same(&rt, &reader.count(), &4);
    Ok(())
}
