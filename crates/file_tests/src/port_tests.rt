//! What no clause says: that each call can succeed, and that files keep what is written to them.
ghost use Rattle.std.specs.Prelude.{◌≡◌};

use gate_ports::{
    Failed, Folder, MemFolder, MemSink, MemSource, PortFault, RealFolder, RealOut, Sink, Source,
    SureSource, give_all,
};
use std::alloc::Global;
use std::test::*;

/// What a call that fails is refused for.
const FAILED: Option<PortFault> = Some(PortFault::Failed);

/// Reads in small pieces up to the end, or up to a hundred pieces.
fn read_in_pieces<S: Source + Send>(alloc: Global, source: &mut S) -> Result<Vec<u8>, Fail>
    ensures name { S.name source.new ≡ S.name source.old }
{
    let mut bytes = Vec::new(alloc);
    let mut piece = [0; 3];
    'pieces: for _ in 0..100 {
        let count = source.fetch(&mut piece)?;
        if count == 0 {
            break;
        }
        bytes.extend_from_slice(&piece[..count])?;
    }
    Ok(bytes)
}

#[test]
fn a_folder_in_memory_gives_back_its_texts(rt: HostRuntime) -> Result<(), Fail> {
    let alloc = rt.alloc();
    let mut folder = MemFolder::new(alloc, 2);
    folder.put("in", Vec::from_slice(alloc, b"abcde")?)?;
    let mut input = folder.open("in")?;
    assert_eq!(rt;
        read_in_pieces(alloc, &mut input)?.as_slice(),
        b"abcde".as_slice()
    );
    folder.done("in", input);
    let mut output = folder.create("out")?;
    give_all(&mut output, b"forty-two")?;
    folder.close("out", output);
    assert_eq!(rt; folder.get("in"), Some(b"abcde".as_slice()));
    assert_eq!(rt; folder.get("out"), Some(b"forty-two".as_slice()));
    assert_eq!(rt; folder.get("other"), None);
    assert_eq!(rt; folder.open("other").err(), Some(PortFault::Failed));
    Ok(())
}

#[test]
fn calls_on_a_folder_fail_by_name_and_number(rt: HostRuntime) -> Result<(), Fail> {
    // The answers of the calls with the numbers 0 to 3.
    const NAMES: [(&str, [Option<PortFault>; 4], [Option<PortFault>; 4]); 3] = [
        (
            "one",
            [None, FAILED, None, None],
            [FAILED, None, FAILED, None],
        ),
        ("two", [None; 4], [None, FAILED, None, None]),
        ("three", [None; 4], [None; 4]),
    ];
    let alloc = rt.alloc();
    let mut folder = MemFolder::new(alloc, 2);
    folder.put("one", Vec::from_slice(alloc, b"abc")?)?;
    folder.fail(gate_ports::Fail::Open, "one", 1)?;
    folder.fail(gate_ports::Fail::Create, "one", 2)?;
    folder.fail(gate_ports::Fail::Create, "one", 0)?;
    folder.fail(gate_ports::Fail::Create, "two", 1)?;
    folder.put("two", Vec::from_slice(alloc, b"d")?)?;
    folder.put("three", Vec::from_slice(alloc, b"")?)?;
    for (name, opened, made) in NAMES {
        for want in opened {
            assert_eq!(rt; folder.open(name).err(), want, "opens {name}");
        }
        for want in made {
            assert_eq!(rt; folder.create(name).err(), want, "makes {name}");
        }
    }
    Ok(())
}

#[test]
fn calls_on_what_a_folder_hands_out_fail(rt: HostRuntime) -> Result<(), Fail> {
    let alloc = rt.alloc();
    let mut folder = MemFolder::new(alloc, 2);
    folder.put("one", Vec::from_slice(alloc, b"abcde")?)?;
    let mut before = folder.open("one")?;
    folder.fail(gate_ports::Fail::Fetch, "one", 1)?;
    folder.fail(gate_ports::Fail::Give, "one", 0)?;
    assert_eq!(rt;
        read_in_pieces(alloc, &mut before)?.as_slice(),
        b"abcde".as_slice()
    );
    for name in ["the first source", "another"] {
        let mut input = folder.open("one")?;
        let mut piece = *b"...";
        assert_eq!(rt; input.fetch(&mut piece), Ok(2), "{name}");
        assert_eq!(rt; input.fetch(&mut piece), Err(Failed), "{name}");
        assert_eq!(rt; piece.as_slice(), b"ab.".as_slice(), "{name}");
        assert_eq!(rt; input.fetch(&mut piece), Ok(2), "{name}");
    }
    for name in ["the first sink", "another"] {
        let mut output = folder.create("one")?;
        assert_eq!(rt; output.give(b"xyz"), Err(PortFault::Failed), "{name}");
        assert_eq!(rt; output.give(b"xyz"), Ok(2), "{name}");
        assert_eq!(rt; output.bytes(), b"xy".as_slice(), "{name}");
    }
    Ok(())
}

#[test]
fn listed_calls_of_a_source_fail(rt: HostRuntime) -> Result<(), Fail> {
    const CALLS: [(&str, Result<usize, Failed>, &[u8]); 5] = [
        ("the first piece", Ok(2), b"ab."),
        ("a failed call", Err(Failed), b"..."),
        ("the piece after it", Ok(2), b"cd."),
        ("the last byte", Ok(1), b"e.."),
        ("the end", Ok(0), b"..."),
    ];
    let alloc = rt.alloc();
    let bytes = Vec::from_slice(alloc, b"abcde")?;
    let mut source = MemSource::new(bytes, 2, Vec::from_slice(alloc, &[1])?);
    for (name, want, held) in CALLS {
        let mut piece = *b"...";
        assert_eq!(rt; source.fetch(&mut piece), want, "{name}");
        assert_eq!(rt; piece.as_slice(), held, "{name}");
    }
    Ok(())
}

#[test]
fn a_sure_source_gives_all_its_bytes(rt: HostRuntime) -> Result<(), Fail> {
    let alloc = rt.alloc();
    let mut source = SureSource::new(Vec::from_slice(alloc, b"abcde")?, 2);
    assert_eq!(rt;
        read_in_pieces(alloc, &mut source)?.as_slice(),
        b"abcde".as_slice()
    );
    assert_eq!(rt; source.fetch(&mut [0; 3]), Ok(0));
    Ok(())
}

#[test]
fn listed_calls_of_a_sink_fail(rt: HostRuntime) -> Result<(), Fail> {
    const CALLS: [(&str, &[u8], Result<usize, PortFault>); 4] = [
        ("no more than the most", b"abc", Ok(2)),
        ("a failed call", b"xyz", Err(PortFault::Failed)),
        ("a piece of one byte", b"c", Ok(1)),
        ("an empty piece", b"", Ok(0)),
    ];
    let alloc = rt.alloc();
    let mut sink = MemSink::new(alloc, 2, Vec::from_slice(alloc, &[1, 5])?);
    for (name, piece, want) in CALLS {
        assert_eq!(rt; sink.give(piece), want, "{name}");
    }
    assert_eq!(rt; give_all(&mut sink, b"defgh"), Err(PortFault::Failed));
    assert_eq!(rt; sink.bytes(), b"abcde".as_slice());
    Ok(())
}

#[test]
fn files_keep_what_is_written(rt: HostRuntime) -> Result<(), Fail> {
    let alloc = rt.alloc();
    let mut folder = RealFolder::new(&rt);
    for (name, text) in [
        ("the first text", b"eight and".as_slice()),
        ("another", b"nine"),
    ] {
        let mut output = folder.create("text")?;
        give_all(&mut output, text)?;
        folder.close("text", output);
        let mut input = folder.open("text")?;
        assert_eq!(rt;
            read_in_pieces(alloc, &mut input)?.as_slice(),
            text,
            "{name}"
        );
        folder.done("text", input);
    }
    assert_eq!(rt; folder.open("missing").err(), Some(PortFault::Failed));
    assert_eq!(rt;
        folder.create("missing/text").err(),
        Some(PortFault::Failed)
    );
    Ok(())
}

#[test]
fn standard_output_takes_all(rt: HostRuntime) -> Result<(), Fail> {
    let mut out = RealOut::new(&rt);
    assert_eq!(rt; give_all(&mut out, b"one line\n"), Ok(()));
    assert_eq!(rt; out.give(b""), Ok(0));
    Ok(())
}
