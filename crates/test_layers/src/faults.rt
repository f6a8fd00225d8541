//! The lines of faults.

use crate::asserts::same;
use copy_vault::{ArchiveFault, ArchiveWriteFault, ChainFault, ChainReadFault, CopyFault, CopyId};
use log_prefix::FrontFault;
use log_store::LogReadFault;
use page_core::{Lsn, PageNo};
use std::alloc::AllocGlobal;
use std::fmt::Display;
use std::process::Abort;
use std::test::Fail;

/// Asserts that this is what is printed of a fault.
fn prints<T: Display>(rt: &(impl Abort + AllocGlobal), fault: &T, line: &str) -> Result<(), Fail> {
    let printed = format!(in rt.alloc(); "{fault}")?;
    same(rt, &printed.as_str(), &line);
    Ok(())
}

#[test]
fn faults_of_a_log_have_lines(rt: HostRuntime) -> Result<(), Fail> {
    prints(&rt, &LogReadFault::OutOfMemory, "E1 OutOfMemory")?;
    prints(&rt, &LogReadFault::BadHeader, "E30 BadHeader")?;
    prints(&rt, &LogReadFault::BadRecord(Lsn(128)), "E31 BadRecord 128")?;
    prints(&rt, &LogReadFault::Torn(Lsn(256)), "E32 Torn 256")?;
    prints(&rt, &LogReadFault::ReadFault, "E33 ReadFault")?;
    prints(&rt, &LogReadFault::TooLong, "E34 TooLong")?;
    prints(&rt, &LogReadFault::BadChain(Lsn(192)), "E35 BadChain 192")
}

#[test]
fn faults_of_a_front_have_lines(rt: HostRuntime) -> Result<(), Fail> {
    prints(&rt, &FrontFault::OutOfMemory, "E1 OutOfMemory")?;
    prints(&rt, &FrontFault::BadHeader, "E30 BadHeader")?;
    prints(&rt, &FrontFault::ReadFault, "E33 ReadFault")
}

#[test]
fn faults_of_an_archive_have_lines(rt: HostRuntime) -> Result<(), Fail> {
    prints(&rt, &ArchiveFault::OutOfMemory, "E1 OutOfMemory")?;
    prints(&rt, &ArchiveFault::BadArchive(576), "E36 BadArchive 576")?;
    prints(&rt, &ArchiveFault::CountDiffers, "E38 CountDiffers")?;
    prints(&rt, &ArchiveFault::ReadFault, "E33 ReadFault")?;
    prints(&rt, &ArchiveWriteFault::OutOfMemory, "E1 OutOfMemory")?;
    prints(
        &rt,
        &ArchiveWriteFault::WriteFault(100),
        "E29 WriteFault 100",
    )
}

#[test]
fn faults_of_a_chain_have_lines(rt: HostRuntime) -> Result<(), Fail> {
    prints(&rt, &ChainReadFault::OutOfMemory, "E1 OutOfMemory")?;
    prints(&rt, &ChainReadFault::ReadFault, "E33 ReadFault")?;
    prints(&rt, &ChainReadFault::BadArchive(64), "E36 BadArchive 64")?;
    prints(
        &rt,
        &ChainReadFault::ChainBroken(CopyId(3)),
        "E37 ChainBroken 3",
    )?;
    prints(&rt, &ChainReadFault::CountDiffers, "E38 CountDiffers")?;
    prints(&rt, &ChainReadFault::RedoBeyondLog, "E39 RedoBeyondLog")?;
    prints(
        &rt,
        &ChainReadFault::PageBeyondLog(PageNo(7)),
        "E40 PageBeyondLog 7",
    )
}

#[test]
fn faults_of_copies_have_lines(rt: HostRuntime) -> Result<(), Fail> {
    prints(&rt, &CopyFault::OutOfMemory, "E1 OutOfMemory")?;
    prints(&rt, &CopyFault::NoCopy, "E17 NoCopy")?;
    prints(&rt, &CopyFault::CopyNotOpen, "E18 CopyNotOpen")?;
    prints(&rt, &CopyFault::CopyNotComplete, "E19 CopyNotComplete")?;
    prints(&rt, &CopyFault::PagesLeft(PageNo(7)), "E21 PagesLeft 7")?;
    prints(&rt, &CopyFault::TooManyCopies, "E25 TooManyCopies")?;
    prints(&rt, &ChainFault::OutOfMemory, "E1 OutOfMemory")?;
    prints(
        &rt,
        &ChainFault::ChainBroken(CopyId(3)),
        "E37 ChainBroken 3",
    )
}
