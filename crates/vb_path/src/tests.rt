// Outside examples: texts that are paths or not.
use super::*;
use std::alloc::Global;
use std::test::Fail;

fn error_of(alloc: Global, text: &[u8]) -> Option<PathError> {
    Path::parse(alloc, text).err()
}

#[test]
fn texts_are_paths_or_not(rt: HostRuntime) -> Result<(), Fail> {
    let long = [b'a'; 256];
    let rows: [(&[u8], Option<PathError>); 13] = [
        (b"/", None),
        (b"/a/b", None),
        (b"", Some(PathError::Empty)),
        (b"a", Some(PathError::NotAbsolute)),
        (b"/\xff/", Some(PathError::NotUtf8 { at: 1 })),
        (b"/a\0", Some(PathError::BadByte { at: 2 })),
        (b"/a/", Some(PathError::TrailingSlash)),
        (b"//", Some(PathError::TrailingSlash)),
        (b"//a", Some(PathError::EmptyPart)),
        (b"/./a", Some(PathError::DotPart)),
        (b"/a/..", Some(PathError::DotPart)),
        (b"/...", None),
        (&long, Some(PathError::NotAbsolute)),
    ];
    for (text, error) in rows {
        assert_eq!(rt; error_of(rt.alloc(), text), error);
    }
    Ok(())
}
