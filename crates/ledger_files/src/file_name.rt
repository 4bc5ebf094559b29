//! The names of a ledger's files.

ghost use Rattle.std.specs.Prelude.{Some};
ghost use Rattle.ledger_files.specs.FileNames.{path_text};

use crate::utc::Date;
use std::fmt;

/// The path of a file of a ledger: that of its folder, the day of its first line, what names the run, and the number of the
/// file in the run.
#[derive(Clone, Copy)]
pub struct FileName<'a> {
    pub folder: &'a str,
    pub date: Date,
    pub run: u64,
    pub number: u64,
}

impl fmt::Display for FileName<'_> {
    ghost output = { λ name. Some (path_text name.folder.now name.date name.run name.number) };

    fn fmt<W: fmt::Write>(&self, f: &mut fmt::Formatter<W>) -> fmt::Result {
        let folder = self.folder;
        let date = self.date;
        let run = self.run;
        let number = self.number;
        write!(f, "{folder}/{date}-{run:016x}-{number:06}.jsonl")
    }
}
