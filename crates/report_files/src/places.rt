//! The paths of a report, and what is there.

use crate::content::{Content, content_of};
use crate::way::Kind;
use std::alloc::{AllocError, Global};
use std::fs;
use std::fs::Metadata;
use std::io::{Error, ErrorKind, Read};
use std::os::unix::fs::MetadataExt;
use std::rt::Files;

// The greatest number of links that are followed, one after another.
const MOST_LINKS: usize = 40;

/// Why the place of a report can't be found.
#[derive(Clone, Copy, PartialEq, Eq, Debug)]
pub(crate) enum Lost {
    /// Memory ran out.
    NoMemory,
    /// The path is that of a folder.
    Folder,
    /// The system can't tell what is at the path, or its folder is missing.
    Unknown,
}

impl From<AllocError> for Lost {
    fn from(_error: AllocError) -> Lost {
        Lost::NoMemory
    }
}

impl From<Error> for Lost {
    fn from(error: Error) -> Lost {
        match error.kind() {
            ErrorKind::OutOfMemory => Lost::NoMemory,
            _ => Lost::Unknown,
        }
    }
}

/// Which file of the system a path leads to.
#[derive(Clone, Copy, PartialEq, Eq, Debug)]
pub(crate) struct FileId {
    // The number of its device.
    device: u64,
    // Its number there.
    number: u64,
}

/// The file with this metadata; none if it is no regular file.
pub(crate) fn id_of(metadata: &Metadata) -> Option<FileId> {
    if !metadata.is_file() || metadata.ino() == 0 {
        return None;
    }
    Some(FileId {
        device: metadata.dev(),
        number: metadata.ino(),
    })
}

/// Whether one of these paths leads to this file.
pub(crate) fn is_one_of<R: Files>(rt: &R, file: FileId, paths: &[&str]) -> bool {
    for path in paths {
        if let Ok(metadata) = fs::metadata(rt, *path)
            && id_of(&metadata) == Some(file)
        {
            return true;
        }
    }
    false
}

/// The metadata of what is at a path, after its links unless `at_link`; none if nothing is there.
pub(crate) fn metadata_at<R: Files>(
    rt: &R,
    path: &str,
    at_link: bool,
) -> Result<Option<Metadata>, Lost> {
    let found = if at_link {
        fs::symlink_metadata(rt, path)
    } else {
        fs::metadata(rt, path)
    };
    match found {
        Ok(metadata) => Ok(Some(metadata)),
        Err(error) if error.kind() == ErrorKind::NotFound => Ok(None),
        Err(error) => Err(Lost::from(error)),
    }
}

/// What is at a path with this metadata, if each report begins with `head`.
pub(crate) fn kind_at<R: Files>(
    rt: &R,
    alloc: Global,
    path: &str,
    metadata: &Metadata,
    head: &[u8],
) -> Result<Kind, AllocError> {
    if metadata.is_dir() {
        return Ok(Kind::Folder);
    }
    if !metadata.is_file() {
        return Ok(Kind::Device);
    }
    let mut front = vec![in alloc; 0u8; head.len()]?;
    match read_front(rt, path, front.as_mut_slice()) {
        Some(count) => Ok(Kind::File(content_of(front.get(..count).unwrap_or(&[]), head))),
        None => Ok(Kind::File(Content::Other)),
    }
}

// Reads the first bytes of a file into the buffer. Returns their number; none if the file can't be read.
fn read_front<R: Files>(rt: &R, path: &str, buffer: &mut [u8]) -> Option<usize> {
    let mut file = fs::open(rt, path).ok()?;
    let mut count = 0usize;
    for _ in 0..u64::MAX {
        let rest = buffer.get_mut(count..)?;
        if rest.is_empty() {
            return Some(count);
        }
        match file.read(rest) {
            Ok(0) => return Some(count),
            Ok(more) => count = count.saturating_add(more),
            Err(error) if error.kind() == ErrorKind::Interrupted => {}
            Err(_) => return None,
        }
    }
    None
}

/// The path of the file to which a path with nothing behind its links leads: the real path of its folder, and its name.
pub(crate) fn new_place<R: Files>(rt: &R, alloc: Global, path: &str) -> Result<String, Lost> {
    let mut place = String::from_str(alloc, path)?;
    for _ in 0..MOST_LINKS {
        match metadata_at(rt, place.as_str(), true)? {
            Some(metadata) if metadata.is_symlink() => {
                place = linked(rt, alloc, place.as_str())?;
            }
            _ => return real_place(rt, alloc, place.as_str()),
        }
    }
    Err(Lost::Unknown)
}

// The path to which a link leads.
fn linked<R: Files>(rt: &R, alloc: Global, path: &str) -> Result<String, Lost> {
    let target = rt.read_link(alloc, path)?.into_string();
    if target.as_str().starts_with('/') {
        return Ok(target);
    }
    let mut place = String::new(alloc);
    place.push_str(parts_of(path).0)?;
    place.push_str("/")?;
    place.push_str(target.as_str())?;
    Ok(place)
}

// The real path of a path's folder, and behind it the path's name.
fn real_place<R: Files>(rt: &R, alloc: Global, path: &str) -> Result<String, Lost> {
    let (folder, name) = parts_of(path);
    if matches!(name, "" | "." | "..") {
        return Err(Lost::Folder);
    }
    let mut place = rt.canonicalize(alloc, folder)?.into_string();
    if !place.as_str().ends_with('/') {
        place.push_str("/")?;
    }
    place.push_str(name)?;
    Ok(place)
}

// The folder of a path, and the name in it.
fn parts_of(path: &str) -> (&str, &str) {
    match path.rsplit_once('/') {
        Some(("", name)) => ("/", name),
        Some((folder, name)) => (folder, name),
        None => (".", path),
    }
}
