//! The file of a report.

use crate::places::{FileId, Lost, id_of, is_one_of, kind_at, metadata_at, new_place};
use crate::way::{Found, Kind, Refusal, Way, may_be_removed, way_of};
use crate::writing::write_whole;
use std::alloc::{AllocError, Global};
use std::fs;
use std::fs::{Metadata, OpenOptions};
use std::io::ErrorKind;
use std::rt::Files;
use text_io::TextFault;

// What is behind a report's path in that of the file that is renamed to the report.
const PART: &str = ".part";

// The path of the program's standard output.
const OUTPUT: [&str; 1] = ["/dev/stdout"];

// The path of the program's standard error.
const ERRORS: [&str; 1] = ["/dev/stderr"];

/// Why there is no file for a report.
#[derive(Clone, Copy, PartialEq, Eq, Debug)]
pub enum Problem {
    /// Memory ran out.
    NoMemory,
    /// A report isn't written to this path.
    Refused(Refusal),
    /// No file can be made there.
    Unwritable,
}

impl From<AllocError> for Problem {
    fn from(_error: AllocError) -> Problem {
        Problem::NoMemory
    }
}

impl From<Lost> for Problem {
    fn from(lost: Lost) -> Problem {
        match lost {
            Lost::NoMemory => Problem::NoMemory,
            Lost::Folder => Problem::Refused(Refusal::Folder),
            Lost::Unknown => Problem::Unwritable,
        }
    }
}

/// The file of a report.
#[derive(Drop)]
pub struct ReportFile {
    // Its path, without links if it is replaced.
    place: String,
    // The path of the file that is renamed to it.
    beside: String,
    // How it is written.
    way: Way,
}

impl ReportFile {
    /// Finds the file of a report by its path, and changes nothing. `head` is what each report of its form begins with,
    /// `inputs` are the paths of the files that the test reads, and `other` is the file of the other report, if it has
    /// one.
    pub fn open<R: Files>(
        rt: &R,
        alloc: Global,
        path: &str,
        head: &[u8],
        inputs: &[&str],
        other: Option<&ReportFile>,
    ) -> Result<ReportFile, Problem> {
        let metadata = metadata_at(rt, path, false)?;
        let place = place_of(rt, alloc, path, metadata.as_ref())?;
        let beside = beside_of(alloc, place.as_str())?;
        let kind = match &metadata {
            Some(metadata) => kind_at(rt, alloc, path, metadata, head)?,
            None => Kind::Nothing,
        };
        let is_shared = is_shared(place.as_str(), beside.as_str(), other);
        let found = found_at(rt, kind, metadata.as_ref(), inputs, is_shared);
        let way = match way_of(found) {
            Ok(way) => way,
            Err(refusal) => return Err(Problem::Refused(refusal)),
        };
        let file = ReportFile { place, beside, way };
        match file.way {
            Way::Replace => file.beside_free(rt, alloc, head, inputs)?,
            Way::Append | Way::Print => {}
        }
        Ok(file)
    }

    // Refuses the file if something else is at the path of the file that is renamed to it.
    fn beside_free<R: Files>(
        &self,
        rt: &R,
        alloc: Global,
        head: &[u8],
        inputs: &[&str],
    ) -> Result<(), Problem> {
        let beside = self.beside.as_str();
        let Some(metadata) = metadata_at(rt, beside, true)? else {
            return Ok(());
        };
        let kind = kind_at(rt, alloc, beside, &metadata, head)?;
        if may_be_removed(found_at(rt, kind, Some(&metadata), inputs, false)) {
            Ok(())
        } else {
            Err(Problem::Refused(Refusal::Beside))
        }
    }

    /// Removes the report of an earlier test, and what such a test left of one, so that there is none until this test
    /// writes its own. Returns `WriteFault` if that fails, or if no file can be made there.
    pub fn clear<R: Files>(&self, rt: &R) -> Result<(), TextFault> {
        match self.way {
            Way::Append | Way::Print => Ok(()),
            Way::Replace => {
                remove(rt, self.place.as_str())?;
                remove(rt, self.beside.as_str())?;
                let _ = self.make(rt)?;
                remove(rt, self.beside.as_str())
            }
        }
    }

    // Makes the file that is renamed to the report. It must not be there.
    fn make<R: Files>(&self, rt: &R) -> Result<R::File, TextFault> {
        let made = OpenOptions::new()
            .write(true)
            .create_new(true)
            .open(rt, self.beside.as_str());
        match made {
            Ok(file) => Ok(file),
            Err(_) => Err(TextFault::WriteFault(0)),
        }
    }

    /// Whether the report is written to the program's standard output, and not by [`ReportFile::write`].
    pub fn is_printed(&self) -> bool {
        match self.way {
            Way::Print => true,
            Way::Append | Way::Replace => false,
        }
    }

    /// Writes a report. Returns `WriteFault` with the number of bytes that went to the report's path, which is 0 for a
    /// file: it has the whole report, or there is none.
    pub fn write<R: Files>(&self, rt: &R, report: &[u8]) -> Result<(), TextFault> {
        match self.way {
            Way::Append | Way::Print => self.append(rt, report),
            Way::Replace => match self.replace(rt, report) {
                Ok(()) => Ok(()),
                Err(_) => {
                    let _ = remove(rt, self.beside.as_str());
                    Err(TextFault::WriteFault(0))
                }
            },
        }
    }

    // Writes a report behind what is there.
    fn append<R: Files>(&self, rt: &R, report: &[u8]) -> Result<(), TextFault> {
        let opened = OpenOptions::new()
            .append(true)
            .open(rt, self.place.as_str());
        match opened {
            Ok(mut file) => write_whole(report, &mut file),
            Err(_) => Err(TextFault::WriteFault(0)),
        }
    }

    // Writes a report to a new file, and gives it the report's name.
    fn replace<R: Files>(&self, rt: &R, report: &[u8]) -> Result<(), TextFault> {
        let mut file = self.make(rt)?;
        write_whole(report, &mut file)?;
        match fs::rename(rt, self.beside.as_str(), self.place.as_str()) {
            Ok(()) => Ok(()),
            Err(_) => Err(TextFault::WriteFault(0)),
        }
    }
}

// The path of a report's file: without links if it is a file or nothing is there, and else as it is given.
fn place_of<R: Files>(
    rt: &R,
    alloc: Global,
    path: &str,
    metadata: Option<&Metadata>,
) -> Result<String, Lost> {
    match metadata {
        None => new_place(rt, alloc, path),
        Some(metadata) if metadata.is_file() => Ok(rt.canonicalize(alloc, path)?.into_string()),
        Some(_) => Ok(String::from_str(alloc, path)?),
    }
}

// The path of the file that is renamed to a report.
fn beside_of(alloc: Global, place: &str) -> Result<String, AllocError> {
    let mut beside = String::from_str(alloc, place)?;
    beside.push_str(PART)?;
    Ok(beside)
}

// Whether one of the two files of a report is one of those of the other report.
fn is_shared(place: &str, beside: &str, other: Option<&ReportFile>) -> bool {
    let Some(other) = other else {
        return false;
    };
    place == other.place.as_str()
        || place == other.beside.as_str()
        || beside == other.place.as_str()
}

// What was found at a path, where something of this kind is.
fn found_at<R: Files>(
    rt: &R,
    kind: Kind,
    metadata: Option<&Metadata>,
    inputs: &[&str],
    is_shared: bool,
) -> Found {
    let file = match metadata {
        Some(metadata) => id_of(metadata),
        None => None,
    };
    Found {
        kind,
        is_input: is_among(rt, file, inputs),
        is_shared,
        is_output: is_among(rt, file, &OUTPUT),
        is_errors: is_among(rt, file, &ERRORS),
    }
}

// Whether a file is one of those with these paths.
fn is_among<R: Files>(rt: &R, file: Option<FileId>, paths: &[&str]) -> bool {
    match file {
        Some(file) => is_one_of(rt, file, paths),
        None => false,
    }
}

// Removes the file with this path, if there is one.
fn remove<R: Files>(rt: &R, path: &str) -> Result<(), TextFault> {
    match fs::remove_file(rt, path) {
        Ok(()) => Ok(()),
        Err(error) if error.kind() == ErrorKind::NotFound => Ok(()),
        Err(_) => Err(TextFault::WriteFault(0)),
    }
}
