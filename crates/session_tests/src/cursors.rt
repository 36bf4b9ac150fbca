//! Worked sessions with cursors: what they give while records come and go, what their names are, and how many there may be.

use super::rows::{answered, answered_on, made_by, see_kept, see_session};
use super::upgrades::see_upgraded;
use Part::{Back, Lines, Put};
use mem_sessions::{Part, SMOOTH, push_key, push_lines, script_of};
use std::alloc::{AllocError, Global};
use std::process::Abort;

// A script on a new store of height limit 2, and its replies.
type Row = (&'static [u8], &'static [u8]);

const WALKS: &[Row] = &[
    (
        b"put a\nput b\nput c\nput d\nopen x * *\nnext x\nremove b\nput bb\nnext x\nput a0\nnext x\nnext x\nnext x\nnext x\n",
        b"stored\nstored\nstored\nstored\nopened\nrecord a\nremoved\nstored\nrecord bb\nstored\nrecord c\nrecord d\nend\nno cursor\n",
    ),
    (
        b"put a\nput b\nput c\nput d\nput e\nopen x * *\nnext x\nbatch remove b ; put cc ; remove e\nnext x\nnext x\nnext x\nnext x\n",
        b"stored\nstored\nstored\nstored\nstored\nopened\nrecord a\nbatch stored=1 replaced=0 removed=2 absent=0\nrecord c\nrecord cc\nrecord d\nend\n",
    ),
    // bounds, and a value that is bound while the cursor is open
    (
        b"put a\nput b 1\nput c\nput d\nopen x b d\nput b 2\nnext x\nput bz 3\nnext x\nnext x\nnext x\n",
        b"stored\nstored\nstored\nstored\nopened\nreplaced\nrecord b 2\nstored\nrecord bz 3\nrecord c\nend\n",
    ),
    // the records themselves are removed on the way, down to none
    (
        b"put a\nput b\nopen x * *\nnext x\nremove a\nnext x\nremove b\nnext x\nopen x b a\nnext x\n",
        b"stored\nstored\nopened\nrecord a\nremoved\nrecord b\nremoved\nend\nopened\nend\n",
    ),
    // two over the same records go their own ways; a cursor counts as no update
    (
        b"put a\nput b\nopen x * *\nopen y b *\nnext x\nnext y\nnext y\nnext x\nclose x\nnext x\ncost\n",
        b"stored\nstored\nopened\nopened\nrecord a\nrecord b\nend\nrecord b\nclosed\nno cursor\ncost updates=2 charge=4 bound=1060\n",
    ),
    // the manual's
    (
        b"put a 1\nput b 2\nput c 3\nopen x * *\nnext x\nput aa 9\nremove b\nnext x\nput a0 9\nremove aa\nnext x\nnext x\nnext x\n",
        b"stored\nstored\nstored\nopened\nrecord a 1\nstored\nremoved\nrecord aa 9\nstored\nremoved\nrecord c 3\nend\nno cursor\n",
    ),
];

// Walks back, on a new store of either slot format.
const WALKS_BACK: &[&[Part]] = &[
    // the manual's: back, on, and back again, past a record that was removed
    &[Lines(
        b"put a\nput b\nput c\nput d\nopen x * *\nprev x\nprev x\nnext x\nprev x\nremove b\nprev x\nprev x\nprev x\n",
        b"stored\nstored\nstored\nstored\nopened\nrecord d\nrecord c\nrecord d\nrecord c\nremoved\nrecord a\nend\nno cursor\n",
    )],
    // bounds, and records that are put on the way and behind it
    &[Lines(
        b"put a\nput b 1\nput c\nput d\nopen x b d\nput b 2\nprev x\nput bz 3\nput cc\nprev x\nprev x\nprev x\n",
        b"stored\nstored\nstored\nstored\nopened\nreplaced\nrecord c\nstored\nstored\nrecord bz 3\nrecord b 2\nend\n",
    )],
    // the 97th record spreads the two segments, and the 127th grows the store
    &[
        Put(1, 65),
        Lines(b"open x * *\n", b"opened\n"),
        Back(65, 60),
        Put(66, 97),
        Back(59, 40),
        Put(98, 127),
        Back(39, 1),
        Lines(b"prev x\ncheck\n", b"end\ncheck ok records=127 height=2\n"),
    ],
];

// Names of cursors, and lines that are no commands.
const NAMES: &[Row] = &[
    (
        b"put a\nopen * * *\nnext %2A\nopen %2a * *\nclose *\nnext *\n",
        b"stored\nopened\nrecord a\ncursor open\nclosed\nno cursor\n",
    ),
    (
        b"close x\nopen x * *\nclose x\nopen x * *\nnext x\nopen x * *\n",
        b"no cursor\nopened\nclosed\nopened\nend\nopened\n",
    ),
    (
        b"open abcdefghijklmnopqrstuvwxy * *\nopen x * abcdefghijklmnopqrstuvwxy\nnext abcdefghijklmnopqrstuvwxy\nopen x *\nopen x * * 1\nnext\nclose x y\nnext x\n",
        b"oversized key 24\noversized key 24\noversized key 24\nbad words\nbad words\nbad words\nbad words\nno cursor\n",
    ),
    (
        b"open x * *\nprev x\nprev x\nprev abcdefghijklmnopqrstuvwxy\nprev\nprev x y\n",
        b"opened\nend\nno cursor\noversized key 24\nbad words\nbad words\n",
    ),
];

#[test]
fn cursors_are_answered(rt: HostRuntime) {
    for rows in [WALKS, NAMES] {
        for (script, want) in rows {
            answered(&rt, rt.alloc(), "2", &[Lines(script, want)]);
        }
    }
}

#[test]
fn cursors_go_back(rt: HostRuntime) {
    let narrow = answered(&rt, rt.alloc(), "3", &[]);
    let wide = see_upgraded(&rt, rt.alloc(), &narrow, (0, b""));
    for parts in WALKS_BACK {
        answered_on(&rt, rt.alloc(), &narrow, parts);
        answered_on(&rt, rt.alloc(), &wide, parts);
    }
}

// A script, and its replies.
type Script = (Vec<u8>, Vec<u8>);

// Sixteen cursors are opened, and then more.
fn seventeen(alloc: Global) -> Result<Script, AllocError> {
    let (mut script, mut want) = (Vec::new(alloc), Vec::new(alloc));
    for number in 1..=16u32 {
        script.extend_from_slice(b"open ")?;
        push_key(&mut script, number)?;
        script.extend_from_slice(b" * *\n")?;
        want.extend_from_slice(b"opened\n")?;
    }
    script.extend_from_slice(
        b"open x * *\nopen k003 * *\nclose k003\nopen x * *\nopen k003 * *\nnext x\nopen k003 * *\n",
    )?;
    want.extend_from_slice(b"no room 16\ncursor open\nclosed\nopened\nno room 16\nend\nopened\n")?;
    Ok((script, want))
}

// Sees that a script on a new store of this height limit is answered so.
fn see_script(rt: &impl Abort, alloc: Global, height: &str, script: Result<Script, AllocError>) {
    let (script, want) = script.expect(rt, "memory");
    let empty = made_by(rt, alloc, "create", b"", height, None);
    see_session(rt, alloc, &empty.file, &script, SMOOTH, (0, &want));
}

#[test]
fn a_seventeenth_finds_no_room(rt: HostRuntime) {
    see_script(&rt, rt.alloc(), "0", seventeen(rt.alloc()));
}

// A put of each number from 66 to 127, and a step of the cursor behind each.
fn push_growth(script: &mut Vec<u8>, want: &mut Vec<u8>) -> Result<(), AllocError> {
    for number in 66..=127u32 {
        push_lines(script, b"put ", number, number)?;
        script.extend_from_slice(b"next x\n")?;
        want.extend_from_slice(b"stored\n")?;
        push_lines(want, b"record ", number - 65, number - 65)?;
    }
    Ok(())
}

// A cursor is opened over 65 records, and steps while as many come.
fn growing(alloc: Global) -> Result<Script, AllocError> {
    let (mut script, mut want) = script_of(
        alloc,
        &[Put(1, 65), Lines(b"open x * *\n", b"opened\n")],
    )?;
    push_growth(&mut script, &mut want)?;
    script.extend_from_slice(b"check\n")?;
    want.extend_from_slice(b"check ok records=127 height=2\n")?;
    Ok((script, want))
}

// The 127th record grows the store, and others before it spread its segments: the cursor goes on behind its key.
#[test]
fn a_cursor_goes_on_through_growth(rt: HostRuntime) {
    see_script(&rt, rt.alloc(), "2", growing(rt.alloc()));
}

// Cursors end with the run, and what is asked of them leaves every byte of the file.
#[test]
fn cursors_end_with_the_run(rt: HostRuntime) {
    let parts = [Lines(b"put a\nopen x * *\n", b"stored\nopened\n")];
    let file = answered(&rt, rt.alloc(), "0", &parts);
    let script = b"next x\nopen x * *\nnext x\nnext x\n";
    let said = b"no cursor\nopened\nrecord a\nend\n";
    see_kept(&rt, rt.alloc(), &file, script, (0, said));
}
