//! A list of files under their names: looking one up, and putting one in its place.

ghost use Rattle.std.specs.Prelude.{◌≡◌, ◌≢◌, ◌<◌, ◌≤◌, ◌↔◌, length, option_copied, OnOk, OnErr, IfOk, IfSome, IfNone, IsErrOf};
ghost use Rattle.snap_io.specs.Held.{Writes};
ghost use Rattle.snap_io.specs.NamedFile.{is_named, held_by, LacksBefore, IsPlaceOf};

use crate::answers::ReadAnswer;
use std::alloc::{AllocError, Global};

/// A file's name and its bytes.
#[derive(Debug, Drop)]
pub struct NamedFile {
    /// The name, under which the file is read and written.
    pub name: String,
    /// All that the file holds.
    pub bytes: Vec<u8>,
}

impl NamedFile {
    fn is_named(&self, name: &str) -> bool
        ensures { result ≡ is_named name.now self.now }
    {
        self.name.as_str() == name
    }
}

// The place of the first file of this name.
fn place_of(files: &[NamedFile], name: &str) -> Option<usize>
    ensures found { IfSome result (IsPlaceOf name.now files.now) }
    ensures none { IfNone result (LacksBefore name.now files.now (length files.now)) }
{
    for (place, file) in files.iter().enumerate() {
        if file.is_named(name) {
            return Some(place);
        }
    }
    None
}

// The bytes under the name, or `None` where the list holds no such file.
pub(crate) fn find<'a>(files: &'a [NamedFile], name: &str) -> Option<&'a [u8]>
    ensures { option_copied result ≡ held_by files.now name.now }
{
    match place_of(files, name) {
        Some(place) => Some(files[place].bytes.as_slice()),
        None => None,
    }
}

// Puts the bytes under the name, in the place of those that stand there. After an error the list
// is as it was.
pub(crate) fn put_under(
    alloc: Global,
    files: &mut Vec<NamedFile>,
    name: &str,
    bytes: &[u8],
) -> Result<(), AllocError>
    ensures ok { OnOk result (Writes name.now bytes.now
        (held_by files.old.items) (held_by files.new.items)) }
    ensures err { OnErr result (files.new.items ≡ files.old.items) }
{
    let bytes = Vec::from_slice(alloc, bytes)?;
    match place_of(files, name) {
        Some(place) => files[place].bytes = bytes,
        None => {
            let name = String::from_str(alloc, name)?;
            files.push(NamedFile { name, bytes })?;
        }
    }
    Ok(())
}

// The bytes again, where there are at most `limit` of them.
pub(crate) fn copied(alloc: Global, bytes: &[u8], limit: u32) -> Result<Vec<u8>, ReadAnswer>
    ensures bytes { IfOk result (λ copy. copy.items ≡ bytes.now) }
    ensures fits { IfOk result (λ copy. length copy.items ≤ limit) }
    ensures too_long { IsErrOf result ReadAnswer.TooLong ↔ (limit < length bytes.now) }
    ensures no_fault { result ≢ Err ReadAnswer.Failed }
{
    if bytes.len() > limit as usize {
        return Err(ReadAnswer::TooLong);
    }
    Ok(Vec::from_slice(alloc, bytes)?)
}
