//! The line that says what a file is.

ghost use Rattle.std.specs.Prelude.{◌≡◌};
ghost use Rattle.file_view.specs.HeadText.{number_of};

use crate::copy_header::CopyHeader;
use log_store::Master;
use page_core::Format;
use std::fmt;

/// What a file is. Its text is the first line that is shown of it.
#[derive(Clone, Copy)]
pub enum Head {
    /// A log whose volume has so many pages at its end, and whole places of so many records behind
    /// its header.
    Log {
        format: Format,
        pages: u32,
        records: u64,
    },
    Master(Master),
    Archive(CopyHeader),
    /// A volume with whole places of so many pages.
    Volume {
        pages: u64,
    },
}

/// The number of a format, as its files name it.
fn number_of(format: Format) -> u32
    ensures { result ≡ number_of format }
{
    match format {
        Format::First => 1,
        Format::Second => 2,
    }
}

/// The kind of a copy, as a script asks for it, by its parent.
#[derive(Clone, Copy)]
struct KindWords(u32);

impl fmt::Display for KindWords {
    ghost use Rattle.std.specs.Prelude.{Some};
    ghost use Rattle.file_view.specs.HeadText.{kind_words};

    ghost output = { λ parent. Some (kind_words parent.0) };

    fn fmt<W: fmt::Write>(&self, f: &mut fmt::Formatter<W>) -> fmt::Result {
        match self.0 {
            0 => f.write_str("full"),
            parent => write!(f, "inc {parent}"),
        }
    }
}

/// The kind of a copy in JSON, by its parent.
#[derive(Clone, Copy)]
struct KindJson(u32);

impl fmt::Display for KindJson {
    ghost use Rattle.std.specs.Prelude.{Some};
    ghost use Rattle.file_view.specs.HeadText.{kind_json};

    ghost output = { λ parent. Some (kind_json parent.0) };

    fn fmt<W: fmt::Write>(&self, f: &mut fmt::Formatter<W>) -> fmt::Result {
        match self.0 {
            0 => f.write_str("\"kind\":\"full\",\"parent\":null"),
            parent => write!(f, "\"kind\":\"inc\",\"parent\":{parent}"),
        }
    }
}

/// Which copy an archive has.
#[derive(Clone, Copy)]
struct NameWords(CopyHeader);

impl fmt::Display for NameWords {
    ghost use Rattle.std.specs.Prelude.{Some};
    ghost use Rattle.file_view.specs.HeadText.{name_words};

    ghost output = { λ it. Some (name_words it.0) };

    #[tactic(auto, unfolding(crate::specs::HeadText::name_words))]
    fn fmt<W: fmt::Write>(&self, f: &mut fmt::Formatter<W>) -> fmt::Result {
        let (id, kind) = (self.0.id, KindWords(self.0.parent));
        write!(f, "copy {id} {kind}")
    }
}

/// The LSNs of its checkpoint, and how many pages follow.
#[derive(Clone, Copy)]
struct RestWords(CopyHeader);

impl fmt::Display for RestWords {
    ghost use Rattle.std.specs.Prelude.{Some};
    ghost use Rattle.file_view.specs.HeadText.{rest_words};

    ghost output = { λ it. Some (rest_words it.0) };

    #[tactic(auto, unfolding(crate::specs::HeadText::rest_words))]
    fn fmt<W: fmt::Write>(&self, f: &mut fmt::Formatter<W>) -> fmt::Result {
        let (begin, redo, taken) = (self.0.begin.0, self.0.redo.0, self.0.taken);
        write!(f, "begin {begin} redo {redo} taken {taken}")
    }
}

impl fmt::Display for CopyHeader {
    ghost use Rattle.std.specs.Prelude.{Some};
    ghost use Rattle.file_view.specs.HeadText.{header_words};

    ghost output = { λ it. Some (header_words it) };

    fn fmt<W: fmt::Write>(&self, f: &mut fmt::Formatter<W>) -> fmt::Result {
        let (name, pages, rest) = (NameWords(*self), self.pages, RestWords(*self));
        write!(f, "{name} pages {pages} {rest}")
    }
}

/// Which copy an archive has, in JSON.
#[derive(Clone, Copy)]
struct NameJson(CopyHeader);

impl fmt::Display for NameJson {
    ghost use Rattle.std.specs.Prelude.{Some};
    ghost use Rattle.file_view.specs.HeadText.{name_json};

    ghost output = { λ it. Some (name_json it.0) };

    #[tactic(auto, unfolding(crate::specs::HeadText::name_json))]
    fn fmt<W: fmt::Write>(&self, f: &mut fmt::Formatter<W>) -> fmt::Result {
        let (id, kind) = (self.0.id, KindJson(self.0.parent));
        write!(f, "\"id\":{id},{kind}")
    }
}

/// The LSNs of its checkpoint, and how many pages follow, in JSON.
#[derive(Clone, Copy)]
struct RestJson(CopyHeader);

impl fmt::Display for RestJson {
    ghost use Rattle.std.specs.Prelude.{Some};
    ghost use Rattle.file_view.specs.HeadText.{rest_json};

    ghost output = { λ it. Some (rest_json it.0) };

    #[tactic(auto, unfolding(crate::specs::HeadText::rest_json))]
    fn fmt<W: fmt::Write>(&self, f: &mut fmt::Formatter<W>) -> fmt::Result {
        let (begin, redo, taken) = (self.0.begin.0, self.0.redo.0, self.0.taken);
        write!(f, "\"begin\":{begin},\"redo\":{redo},\"taken\":{taken}")
    }
}

/// The fields of an archive's header in JSON, without braces.
#[derive(Clone, Copy)]
pub(crate) struct HeaderJson(pub CopyHeader);

impl fmt::Display for HeaderJson {
    ghost use Rattle.std.specs.Prelude.{Some};
    ghost use Rattle.file_view.specs.HeadText.{header_json};

    ghost output = { λ it. Some (header_json it.0) };

    fn fmt<W: fmt::Write>(&self, f: &mut fmt::Formatter<W>) -> fmt::Result {
        let (name, pages, rest) = (NameJson(self.0), self.0.pages, RestJson(self.0));
        write!(f, "{name},\"pages\":{pages},{rest}")
    }
}

impl fmt::Display for Head {
    ghost use Rattle.std.specs.Prelude.{Some};
    ghost use Rattle.file_view.specs.HeadText.{head_words};

    ghost output = { λ head. Some (head_words head) };

    fn fmt<W: fmt::Write>(&self, f: &mut fmt::Formatter<W>) -> fmt::Result {
        match self {
            Head::Log {
                format,
                pages,
                records,
            } => {
                let format = number_of(*format);
                write!(f, "log format {format} pages {pages} records {records}")
            }
            Head::Master(master) => {
                let (begin, end) = (master.begin.0, master.end.0);
                write!(f, "master begin {begin} end {end}")
            }
            Head::Archive(header) => {
                let format = number_of(header.format);
                write!(f, "archive format {format} {header}")
            }
            Head::Volume { pages } => write!(f, "volume pages {pages}"),
        }
    }
}

/// What a head says, as an object of JSON.
#[derive(Clone, Copy)]
pub struct HeadJson(pub Head);

impl fmt::Display for HeadJson {
    ghost use Rattle.std.specs.Prelude.{Some};
    ghost use Rattle.file_view.specs.HeadText.{head_json};

    ghost output = { λ head. Some (head_json head.0) };

    fn fmt<W: fmt::Write>(&self, f: &mut fmt::Formatter<W>) -> fmt::Result {
        match self.0 {
            Head::Log {
                format,
                pages,
                records,
            } => {
                let format = number_of(format);
                write!(
                    f,
                    "{{\"file\":\"log\",\"format\":{format},\"pages\":{pages}"
                )?;
                write!(f, ",\"records\":{records}}}")
            }
            Head::Master(master) => {
                let (begin, end) = (master.begin.0, master.end.0);
                write!(f, "{{\"file\":\"master\",\"begin\":{begin},\"end\":{end}}}")
            }
            Head::Archive(header) => {
                let (format, header) = (number_of(header.format), HeaderJson(header));
                write!(f, "{{\"file\":\"archive\",\"format\":{format},{header}}}")
            }
            Head::Volume { pages } => { write!(f, "{{\"file\":\"volume\",\"pages\":{pages}}}") }
        }
    }
}
