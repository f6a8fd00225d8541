//! The names of faults and refusals, and their numbers.

use std::fmt;

/// The name of a fault or of a refusal, of which some type of a crate above has the meaning. Its
/// text is what the fault's line begins with: `E`, its number, and its name. The numbers that a
/// fault has of its own follow it there.
#[derive(Clone, Copy, Debug, PartialEq, Eq)]
pub enum FaultName {
    OutOfMemory,
    NoTxn,
    PageOut,
    SlotOut,
    SlotBusy,
    TxnRolling,
    NotRolling,
    LogFull,
    TooManyTxns,
    NotDirty,
    WriteBegun,
    NoWrite,
    CkptOpen,
    NoCkpt,
    GatherLeft,
    NoMaster,
    NoCopy,
    CopyNotOpen,
    CopyNotComplete,
    PageDecided,
    PagesLeft,
    StoreFault,
    LogFault,
    PoolFull,
    TooManyCopies,
    CommitUnsure,
    CutTooShort,
    Unsettled,
    WriteFault,
    BadHeader,
    BadRecord,
    Torn,
    ReadFault,
    TooLong,
    BadChain,
    BadArchive,
    ChainBroken,
    CountDiffers,
    RedoBeyondLog,
    PageBeyondLog,
    Unsound,
    NoSavepoint,
    NotLarger,
}

impl fmt::Display for FaultName {
    ghost use Rattle.std.specs.Prelude.{Some};
    ghost use Rattle.page_core.specs.FaultName.{fault_line};

    ghost output = { λ name. Some (fault_line name) };

    fn fmt<W: fmt::Write>(&self, f: &mut fmt::Formatter<W>) -> fmt::Result {
        f.write_str(self.line())
    }
}

impl FaultName {
    ghost use Rattle.std.specs.Prelude.{◌≡◌};
    ghost use Rattle.page_core.specs.FaultName.{fault_line};

    /// What its line begins with.
    fn line(&self) -> &'static str
        ensures { result.now ≡ fault_line self.now }
    {
        match self {
            FaultName::OutOfMemory => "E1 OutOfMemory",
            FaultName::NoTxn => "E2 NoTxn",
            FaultName::PageOut => "E3 PageOut",
            FaultName::SlotOut => "E4 SlotOut",
            FaultName::SlotBusy => "E5 SlotBusy",
            FaultName::TxnRolling => "E6 TxnRolling",
            FaultName::NotRolling => "E7 NotRolling",
            FaultName::LogFull => "E8 LogFull",
            FaultName::TooManyTxns => "E9 TooManyTxns",
            FaultName::NotDirty => "E10 NotDirty",
            FaultName::WriteBegun => "E11 WriteBegun",
            FaultName::NoWrite => "E12 NoWrite",
            FaultName::CkptOpen => "E13 CkptOpen",
            FaultName::NoCkpt => "E14 NoCkpt",
            FaultName::GatherLeft => "E15 GatherLeft",
            FaultName::NoMaster => "E16 NoMaster",
            FaultName::NoCopy => "E17 NoCopy",
            FaultName::CopyNotOpen => "E18 CopyNotOpen",
            FaultName::CopyNotComplete => "E19 CopyNotComplete",
            FaultName::PageDecided => "E20 PageDecided",
            FaultName::PagesLeft => "E21 PagesLeft",
            FaultName::StoreFault => "E22 StoreFault",
            FaultName::LogFault => "E23 LogFault",
            FaultName::PoolFull => "E24 PoolFull",
            FaultName::TooManyCopies => "E25 TooManyCopies",
            FaultName::CommitUnsure => "E26 CommitUnsure",
            FaultName::CutTooShort => "E27 CutTooShort",
            FaultName::Unsettled => "E28 Unsettled",
            FaultName::WriteFault => "E29 WriteFault",
            FaultName::BadHeader => "E30 BadHeader",
            FaultName::BadRecord => "E31 BadRecord",
            FaultName::Torn => "E32 Torn",
            FaultName::ReadFault => "E33 ReadFault",
            FaultName::TooLong => "E34 TooLong",
            FaultName::BadChain => "E35 BadChain",
            FaultName::BadArchive => "E36 BadArchive",
            FaultName::ChainBroken => "E37 ChainBroken",
            FaultName::CountDiffers => "E38 CountDiffers",
            FaultName::RedoBeyondLog => "E39 RedoBeyondLog",
            FaultName::PageBeyondLog => "E40 PageBeyondLog",
            FaultName::Unsound => "E41 Unsound",
            FaultName::NoSavepoint => "E42 NoSavepoint",
            FaultName::NotLarger => "E43 NotLarger",
        }
    }
}
