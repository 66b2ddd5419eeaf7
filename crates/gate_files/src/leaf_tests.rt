//! With ample memory names are made. No clause says that memory isn't wanting.
use crate::names::{OutputFiles, OutputFolder, names_in};
use std::test::Fail;

#[test]
fn names_the_outputs(rt: HostRuntime) -> Result<(), Fail> {
    let out = OutputFolder {
        name: "out",
        files: OutputFiles::Run,
    };
    let names = names_in(rt.alloc(), out, 64).ok().ok_or("memory")?;
    assert_eq!(rt; names.sessions.len(), 64);
    assert_eq!(rt; names.sessions[0].venue.as_str(), "out/s00.venue");
    assert_eq!(rt; names.sessions[0].client.as_str(), "out/s00.client");
    assert_eq!(rt; names.sessions[63].venue.as_str(), "out/s63.venue");
    assert_eq!(rt; names.journal.as_str(), "out/journal.csv");
    Ok(())
}

#[test]
fn names_the_outputs_of_a_filter(rt: HostRuntime) -> Result<(), Fail> {
    let out = OutputFolder {
        name: "out",
        files: OutputFiles::Cross,
    };
    let names = names_in(rt.alloc(), out, 2).ok().ok_or("memory")?;
    assert_eq!(rt; names.sessions.len(), 2);
    assert_eq!(rt; names.sessions[1].venue.as_str(), "out/s01.pass");
    assert_eq!(rt; names.sessions[1].client.as_str(), "out/s01.client");
    assert_eq!(rt; names.journal.as_str(), "out/cross.csv");
    Ok(())
}
