//! Folders of the real system.
use std::test::Fail;
use std::{env, fs, io, process};

/// The path of a new folder among the temporary files, which is named like the test and its process. What an earlier process of that number
/// left there is removed. It fails where the system refuses.
pub fn new_folder(rt: &HostRuntime, name: &str) -> io::Result<String> {
    let base = env::temp_dir(rt)?;
    let base = base.as_str();
    let id = process::id(rt.process());
    let folder = format!(in rt.alloc(); "{base}/settings_{name}_{id}")?;
    let _ = fs::remove_dir_all(rt, folder.as_str());
    fs::create_dir(rt, folder.as_str())?;
    Ok(folder)
}

/// Removes the folder of a test that is done, with all that is in it. It fails where the system refuses.
pub fn remove_folder(rt: &HostRuntime, folder: &str) -> Result<(), Fail> {
    Ok(fs::remove_dir_all(rt, folder)?)
}
