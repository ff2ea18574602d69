//! Faults as texts, and what the system's errors say of a file.

use std::io;
use std::io::ErrorKind;
use std::test::Fail;
use tv_files::ReadFault;
use tv_lang::LangFault;

#[test]
fn faults_of_descriptions(rt: HostRuntime) -> Result<(), Fail> {
    for &(fault, wanted) in &[
        (LangFault::NoMemory, "out of memory"),
        (
            LangFault::Syntax(7),
            "line 7 is no declaration that can stand there",
        ),
        (LangFault::TooLong, "the text is longer than 262,144 bytes"),
        (LangFault::Version, "the description is of another version"),
    ] {
        let text = format!(in rt.alloc(); "{fault}")?;
        assert_eq!(rt; text.as_str(), wanted);
    }
    Ok(())
}

#[test]
fn faults_of_files(rt: HostRuntime) -> Result<(), Fail> {
    for &(kind, wanted, text) in &[
        (ErrorKind::NotFound, ReadFault::Read, "cannot read"),
        (ErrorKind::PermissionDenied, ReadFault::Read, "cannot read"),
        (ErrorKind::IsADirectory, ReadFault::Read, "cannot read"),
        (ErrorKind::OutOfMemory, ReadFault::NoMemory, "no memory"),
    ] {
        let fault = ReadFault::from(io::Error::from(kind));
        assert_eq!(rt; fault, wanted);
        assert_eq!(rt; format!(in rt.alloc(); "{fault}")?.as_str(), text);
    }
    Ok(())
}
