//! Which texts are read as journals and which row of the others is told, by rows that stand for the
//! grammar. No clause says that memory isn't wanting. What is read is compared by its text.
use risk_journal::{
    JournalFault, one_reading_stands, read_journal, write_journal, written_is_read,
};
use std::test::Fail;

/// The first row, with its LF.
const HEADER: &str = "kind,session,a,b,c,d\n";

/// Rows behind the header, and their text when they are written again.
const READ: [(&str, &str); 7] = [
    ("no session", ""),
    ("a session without acts of its own", "ended,0,0,,,\n"),
    (
        "an order that was sent",
        "post,0,0,1,1000,\npost,0,1,1,1000,\npost,0,2,1,1000,\nread,0,3,0,0,0\n\
         read,0,0,1,1,1000\nread,0,1,1,1,1000\nread,0,2,1,1,1000\nsent,0,0,,,\nended,0,0,,,\n\
         line,0,0,1,1,1000\nline,0,1,1,1,1000\nline,0,2,1,1,1000\n",
    ),
    (
        "each kind of row and the ends with no place",
        "post,0,0,1,5,\nread,0,0,1,1,5\nsent,0,0,,,\nrefused,0,1,16,55,1\nnoted,0,2,5,44,6\n\
         ended,0,4,,,\nended,1,5,,,\nended,2,6,,,\nline,0,0,1,1,5\n",
    ),
    (
        "the ends with a place",
        "ended,0,1,136,,\nended,1,2,0,,\nended,2,3,33554432,,\n",
    ),
    (
        "trees without lines before and between",
        "ended,0,0,,,\nline,0,1,1,1,5\nline,0,1,2,2,6\nline,0,3,1,1,7\n",
    ),
    (
        "the largest numbers",
        "post,0,4294967295,4294967295,18446744073709551615,\n\
         refused,0,4294967295,255,4294967295,4294967295\nended,0,1,18446744073709551615,,\n\
         line,4294967295,0,1,4294967295,18446744073709551615\n",
    ),
];

/// Rows behind the header, and the first that no journal has there.
const REFUSED: [(&str, &str, u32); 32] = [
    ("a row without LF", "ended,0,0,,,", 2),
    ("a last row without LF", "ended,0,0,,,\nended,1,0,,,", 3),
    ("an empty row", "\nended,0,0,,,\n", 2),
    ("a leading zero", "post,0,00,1,5,\nended,0,0,,,\n", 2),
    ("a leading zero of the session", "ended,00,0,,,\n", 2),
    ("a sign", "post,0,+1,1,5,\n", 2),
    ("a space", "post,0, 1,1,5,\n", 2),
    ("quotes", "\"post\",0,1,1,5,\n", 2),
    ("CR before LF", "ended,0,0,,,\r\n", 2),
    ("five cells", "post,0,0,1,5\n", 2),
    ("seven cells", "post,0,0,1,5,,\n", 2),
    ("a cell that must be empty", "post,0,0,1,5,6\n", 2),
    ("a cell that is wanting", "post,0,0,,5,\n", 2),
    ("another kind", "fill,0,0,1,5,\n", 2),
    ("a kind in capitals", "Post,0,0,1,5,\n", 2),
    ("a tree above its type", "post,0,4294967296,1,5,\n", 2),
    (
        "a value above its type",
        "post,0,0,1,18446744073709551616,\n",
        2,
    ),
    ("a code above its type", "refused,0,1,256,0,0\n", 2),
    ("no such end", "ended,0,7,,,\n", 2),
    ("no such end with a place", "ended,0,9,321,,\n", 2),
    ("a place where the end has none", "ended,0,0,5,,\n", 2),
    ("no place where the end has one", "ended,0,1,,,\n", 2),
    ("the second session first", "ended,1,0,,,\n", 2),
    ("a session left out", "ended,0,0,,,\nended,2,0,,,\n", 3),
    (
        "an act behind its session's end",
        "ended,0,0,,,\nsent,0,1,,,\n",
        3,
    ),
    ("two sessions mixed", "sent,0,0,,,\nsent,1,0,,,\n", 3),
    ("a line before the end", "sent,0,0,,,\nline,0,0,1,1,5\n", 3),
    (
        "an act behind a line",
        "ended,0,0,,,\nline,0,0,1,1,5\nended,1,0,,,\n",
        4,
    ),
    (
        "a first line of place 2",
        "ended,0,0,,,\nline,0,0,2,1,5\n",
        3,
    ),
    (
        "a place twice",
        "ended,0,0,,,\nline,0,0,1,1,5\nline,0,0,1,2,6\n",
        4,
    ),
    (
        "a tree below the one before",
        "ended,0,0,,,\nline,0,1,1,1,5\nline,0,0,1,1,5\n",
        4,
    ),
    (
        "a session that hasn't ended",
        "post,0,0,1,5,\nsent,0,0,,,\n",
        4,
    ),
];

/// Whole texts whose first row isn't the header.
const HEADLESS: [(&str, &str); 4] = [
    ("nothing", ""),
    ("the header without LF", "kind,session,a,b,c,d"),
    ("another header", "kind,session,a,b,c\nended,0,0,,,\n"),
    ("no header", "ended,0,0,,,\n"),
];

#[test]
fn reads_what_is_written(rt: HostRuntime) -> Result<(), Fail> {
    for (name, rows) in READ {
        let mut text = String::from_str(rt.alloc(), HEADER)?;
        text.push_str(rows)?;
        assert!(rt; text.len() < 1000, "{name}");
        let journal = read_journal(rt.alloc(), text.as_bytes())
            .ok()
            .ok_or("refused")?;
        let again = write_journal(rt.alloc(), &journal).ok().ok_or("memory")?;
        assert_eq!(rt; again.as_slice(), text.as_bytes(), "{name}");
    }
    Ok(())
}

#[test]
fn tells_the_first_row_outside(rt: HostRuntime) -> Result<(), Fail> {
    for (name, rows, row) in REFUSED {
        let mut text = String::from_str(rt.alloc(), HEADER)?;
        text.push_str(rows)?;
        assert!(rt; text.len() < 1000, "{name}");
        let fault = read_journal(rt.alloc(), text.as_bytes()).err();
        assert_eq!(rt; fault, Some(JournalFault::Row(row)), "{name}");
    }
    Ok(())
}

#[test]
fn asks_for_the_header_first(rt: HostRuntime) -> Result<(), Fail> {
    for (name, text) in HEADLESS {
        assert!(rt; text.len() < 1000, "{name}");
        let fault = read_journal(rt.alloc(), text.as_bytes()).err();
        assert_eq!(rt; fault, Some(JournalFault::Row(1)), "{name}");
    }
    Ok(())
}

#[test]
fn keeps_lists_of_acts_and_lines(rt: HostRuntime) -> Result<(), Fail> {
    let text = "kind,session,a,b,c,d\nsent,0,7,,,\nended,0,0,,,\nended,1,4,,,\nline,1,2,1,3,5\n";
    let journal = read_journal(rt.alloc(), text.as_bytes())
        .ok()
        .ok_or("refused")?;
    assert_eq!(rt; journal.acts.len(), 2);
    assert_eq!(rt; journal.acts[0].len(), 2);
    assert_eq!(rt; journal.acts[1].len(), 1);
    assert_eq!(rt; journal.lines.len(), 3);
    assert_eq!(rt; journal.lines[0].len(), 0);
    assert_eq!(rt; journal.lines[2].len(), 1);
    written_is_read();
    one_reading_stands();
    Ok(())
}
