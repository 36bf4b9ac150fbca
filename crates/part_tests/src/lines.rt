//! Worked scripts, in pieces of several sizes.

ghost use Rattle.std.specs.Prelude.{◌≤◌};

use line_source::{LineReader, LineStep, MemSource};
use std::alloc::Global;
use std::process::Abort;

// The lines of a script in brackets, `!` for each long one, and how the reading ended.
fn transcript(
    rt: &impl Abort,
    alloc: Global,
    script: &[u8],
    piece: usize,
    fail: &[u32],
    most: u64,
) -> Vec<u8>
    requires { 1 ≤ piece }
{
    let mut source = MemSource::new(alloc, script, piece, fail).expect(rt, "memory");
    let mut reader = LineReader::new(most);
    let mut text = Vec::new(alloc);
    'lines: loop {
        let end = match reader.next_line(&mut source) {
            LineStep::Line => {
                text.push(b'[').expect(rt, "memory");
                text.extend_from_slice(reader.line()).expect(rt, "memory");
                text.push(b']').expect(rt, "memory");
                continue 'lines;
            }
            LineStep::LongLine => {
                text.push(b'!').expect(rt, "memory");
                continue 'lines;
            }
            LineStep::End => b"end".as_slice(),
            LineStep::ReadFailed => b"failed".as_slice(),
            LineStep::Spent => b"spent".as_slice(),
        };
        text.extend_from_slice(end).expect(rt, "memory");
        return text;
    }
}

#[test]
fn pieces_make_no_difference(rt: HostRuntime) {
    let mut long = [b'x'; 513];
    long[512] = b'\r';
    for piece in [1, 2, 3, 512, 4096] {
        for (script, want) in [
            (b"".as_slice(), b"end".as_slice()),
            (
                b"get a\r\n\n# note\nput b 1",
                b"[get a][][# note][put b 1]end",
            ),
            (b"a\r\r\n\r\n b ", b"[a\r][][ b ]end"),
            (&long, b"!end"),
        ] {
            let text = transcript(&rt, rt.alloc(), script, piece, &[], 1000);
            assert!(rt; text.as_slice() == want, "in pieces of {piece}");
        }
    }
}

#[test]
fn reading_stops_behind_a_line(rt: HostRuntime) {
    for (script, piece, fail, most, want) in [
        (
            b"get a\nget b\n".as_slice(),
            4096,
            [].as_slice(),
            8,
            b"[get a]spent".as_slice(),
        ),
        (b"get a\n", 4096, &[], 6, b"[get a]spent"),
        (b"get a\n", 4096, &[], 7, b"[get a]end"),
        (b"put a 1\nget", 11, &[1], 1000, b"[put a 1]failed"),
        (b"get a", 4096, &[0], 1000, b"failed"),
        (b"get a\nget b", 2, &[3], 1000, b"[get a]failed"),
    ] {
        let text = transcript(&rt, rt.alloc(), script, piece, fail, most);
        assert!(rt; text.as_slice() == want, "at most {most} bytes");
    }
}
