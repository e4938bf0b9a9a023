//! The replies that are read back: what each says, row by row.
use analysis_core::{Counts, Diagnostic, ErrorLine, FoundLine, Reply};
use gv_base::{Bytes, Files, NoMemory, Place, Row, Text};
use std::alloc::Global;

/// A package; 0 for an error line or an analyzer's number; an offset; how that place is printed, nothing where there is
/// none; and what is said.
pub type Said<'a> = (&'a str, u8, u32, &'a str, &'a [u8]);

/// Error lines with and without a place, and diagnostics.
#[rattlefmt::skip]
pub const EACH_KIND: [Said<'static>; 6] = [
    ("m/a", 0, 23, "a.go:4:2", b"E32 not assignable"),
    ("m/b", 0, 0, "", b"blocked by m/c"),
    ("m/b", 0, 10, "a.go:2:1", b"syntax error"),
    ("m/a", 1, 23, "a.go:4:2", b"self-assignment of x"),
    ("m/a", 9, 23, "a.go:4:2", b"unreachable code"),
    ("m/a", 1, 30, "a.go:5:2", b"self-assignment of y"),
];

/// Texts that are escaped, and characters of each length, those at the ends of a length's range among them.
#[rattlefmt::skip]
pub const CHARACTERS: [Said<'static>; 12] = [
    ("m/a", 6, 0, "a.go:1:1", b"\x7f\xc2\x80"),
    ("m/a", 6, 0, "a.go:1:1", b"\xdf\xbf\xe0\xa0\x80"),
    ("m/a", 6, 0, "a.go:1:1", b"\xed\x9f\xbf\xee\x80\x80"),
    ("m/a", 6, 0, "a.go:1:1", b"\xef\xbf\xbf\xf0\x90\x80\x80"),
    ("m/a", 6, 0, "a.go:1:1", b"\xf4\x8f\xbf\xbf"),
    ("m/a", 6, 0, "a.go:1:1", b"\xe2\x80\xa8\xe2\x80\xa9"),
    ("m/a", 6, 0, "a.go:1:1", b"\xef\xbf\xbd\xef\xbb\xbf"),
    ("m/a", 6, 0, "a.go:1:1", b"\"\xc3\xa9\"\\\xf0\x9f\x98\x80/"),
    ("m/a", 6, 0, "a.go:1:1", b"{\"message\":\"\\u0041\"}"),
    ("m/a", 6, 0, "a.go:1:1", b"\\\\\\\"\n\r\t"),
    ("m/a", 6, 0, "a.go:1:1", b""),
    ("m/a", 6, 0, "a.go:1:1", b"\xed\xa0\x80"),
];

/// What each analyzer says, in no order of the bytes of their names, beside an error line.
#[rattlefmt::skip]
pub const ANALYZERS: [Said<'static>; 12] = [
    ("m/a", 0, 0, "", b"import cycle"),
    ("m/a", 10, 36, "a.go:6:1", b"this"),
    ("m/a", 9, 36, "a.go:6:1", b"this"),
    ("m/a", 8, 36, "a.go:6:1", b"this"),
    ("m/a", 7, 36, "a.go:6:1", b"this"),
    ("m/a", 6, 36, "a.go:6:1", b"this"),
    ("m/a", 5, 36, "a.go:6:1", b"this"),
    ("m/a", 4, 36, "a.go:6:1", b"this"),
    ("m/a", 3, 36, "a.go:6:1", b"this"),
    ("m/a", 2, 36, "a.go:6:1", b"this"),
    ("m/a", 1, 36, "a.go:6:1", b"this"),
    ("m/a", 10, 29, "a.go:5:1", b"that"),
];

/// Packages that begin alike, in no order.
#[rattlefmt::skip]
pub const PACKAGES: [Said<'static>; 11] = [
    ("m/a/b", 0, 38, "a.go:7:1", b"one"),
    ("m/a-b", 0, 28, "a.go:4:7", b"two"),
    ("n", 0, 21, "a.go:3:11", b"three"),
    ("m/a", 0, 11, "a.go:3:1", b"four"),
    ("m/ab", 0, 9, "a.go:1:10", b"five"),
    ("m", 0, 0, "a.go:1:1", b"six"),
    ("m/b", 4, 0, "a.go:1:1", b"seven"),
    ("m/a.b", 4, 0, "a.go:1:1", b"eight"),
    ("m/A", 4, 0, "a.go:1:1", b"nine"),
    ("m/a", 4, 0, "a.go:1:1", b"ten"),
    ("m/a/b", 4, 0, "a.go:1:1", b"eleven"),
];

/// The file in which the places stand; each of its lines is of another length.
pub fn one_file(alloc: Global) -> Result<Files, NoMemory> {
    let mut files = Files::new(alloc);
    files.put("a.go", b"package a\n\nfunc g() {\n\tx = x\n\ty = y\n}\n")?;
    Ok(files)
}

/// Each byte.
pub fn all_bytes(alloc: Global) -> Result<Vec<u8>, NoMemory> {
    let mut bytes = Vec::new(alloc);
    for byte in 0..=255u8 {
        bytes.push(byte)?;
    }
    Ok(bytes)
}

/// An error line for each of these bytes.
pub fn byte_rows<'a>(alloc: Global, bytes: &'a [u8]) -> Result<Vec<Said<'a>>, NoMemory> {
    let mut rows = Vec::new(alloc);
    for text in bytes.chunks(1) {
        rows.push(("m/a", 0, 0, "", text))?;
    }
    Ok(rows)
}

fn place_of(said: Said<'_>) -> Option<Place> {
    if said.3.is_empty() {
        return None;
    }
    Some(Place {
        file: 0,
        offset: said.2,
    })
}

fn error(alloc: Global, said: Said<'_>) -> Result<ErrorLine, NoMemory> {
    Ok(ErrorLine {
        package: Text::of(alloc, said.0)?,
        place: place_of(said),
        text: Bytes::of(alloc, said.4)?,
    })
}

fn found(alloc: Global, said: Said<'_>) -> Result<FoundLine, NoMemory> {
    let diagnostic = Diagnostic {
        place: Place {
            file: 0,
            offset: said.2,
        },
        end: said.2,
        analyzer: said.1,
        text: Bytes::of(alloc, said.4)?,
        fix: None,
    };
    Ok(FoundLine {
        package: Text::of(alloc, said.0)?,
        diagnostic,
    })
}

/// The reply that says these.
pub fn reply_of(alloc: Global, rows: &[Said<'_>]) -> Result<Reply, NoMemory> {
    let mut errors = Vec::new(alloc);
    let mut list = Vec::new(alloc);
    for said in rows {
        if said.1 == 0 {
            errors.push(error(alloc, *said)?)?;
        } else {
            list.push(found(alloc, *said)?)?;
        }
    }
    let counts = Counts {
        nodes: 0,
        missing: 0,
        loads: 0,
        runs: 0,
    };
    let mut reply = Reply::of_check(alloc, 3, Row::new(errors), counts);
    reply.diagnostics = Row::new(list);
    Ok(reply)
}
