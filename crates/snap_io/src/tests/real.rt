//! Real files, in a folder of this process's own.

use super::*;
use std::alloc::AllocError;
use std::path::PathBuf;
use std::test::Fail;
use std::{env, fs, io, process};

/// The path of a folder that no other process takes.
fn own_folder(rt: &HostRuntime) -> io::Result<PathBuf> {
    let name = format!(in rt.alloc(); "snap_io-{}", process::id(rt.process()))?;
    Ok(env::temp_dir(rt)?.join(rt.alloc(), name.as_str())?)
}

/// Calls before there are files, at the first and at the folder itself.
const FAILING: [(Place, Call); 3] = [
    (Place::First, Call::Read(9, Err(ReadAnswer::Failed))),
    (Place::Second, Call::Read(9, Err(ReadAnswer::Failed))),
    (Place::Second, Call::Write(b"x", Some(WriteAnswer::Failed))),
];

/// Whether more than one read's worth is written and read, and is more than a lower limit.
fn takes_much(
    rt: &HostRuntime,
    files: &mut OsFiles<HostRuntime>,
    name: &str,
) -> Result<bool, AllocError> {
    let long = vec![in rt.alloc(); 7u8; 200_000]?;
    let is_written = files.write(name, long.as_slice()).is_ok();
    let is_read = match files.read(name, 200_000) {
        Ok(bytes) => bytes == long,
        Err(_) => false,
    };
    let is_too_long = files.read(name, 199_999).err() == Some(ReadAnswer::TooLong);
    Ok(is_written && is_read && is_too_long)
}

#[test]
fn real_files(rt: HostRuntime) -> Result<(), Fail> {
    let folder = own_folder(&rt)?;
    let first = folder.join(rt.alloc(), "first")?;
    let second = folder.join(rt.alloc(), "second")?;
    fs::create_dir(&rt, folder.as_path())?;

    let mut files = OsFiles::new(rt.clone()?);
    assert_eq!(rt;
        first_misanswered(&mut files, first.as_str(), folder.as_str(), &FAILING),
        None
    );
    assert_eq!(rt;
        first_misanswered(
            &mut files,
            first.as_str(),
            second.as_str(),
            &WRITES_AND_READS
        ),
        None
    );
    assert!(rt; takes_much(&rt, &mut files, first.as_str())?);

    fs::remove_file(&rt, first.as_path())?;
    fs::remove_file(&rt, second.as_path())?;
    fs::remove_dir(&rt, folder.as_path())?;
    Ok(())
}
