use crate::DirFiles;
use ossl_base::{FileRefusal, Files};
use std::fs;
use std::test::Fail;

// A file, the same under a limit that it passes, one that is not there, a folder, and a name that is no text.
#[test]
fn files_of_the_system(rt: HostRuntime) -> Result<(), Fail> {
    let alloc = rt.alloc();
    let name = "files_of_the_system.tmp";
    fs::write(&rt, name, "twelve bytes")?;
    let mut files = DirFiles::new(&rt);
    let whole = files.read_whole(alloc, name.as_bytes(), 12);
    let longer = files.read_whole(alloc, name.as_bytes(), 11);
    fs::remove_file(&rt, name)?;
    assert!(rt; matches!(&whole, Ok(content) if content.as_slice() == b"twelve bytes".as_slice()));
    assert!(rt; matches!(longer, Err(FileRefusal::TooLong)));
    for name in [name.as_bytes(), b".", b"\xFF"] {
        let missing = files.read_whole(alloc, name, 12);
        assert!(rt; matches!(missing, Err(FileRefusal::Failed)));
    }
    Ok(())
}
