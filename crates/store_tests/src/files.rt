//! Files of a few segments: their bytes by the counts of their segments, and what the bytes of a file say.

ghost use Rattle.std.specs.Prelude.{◌≡◌, ◌+◌, ◌-◌, ◌≤◌, length, IfOk};

use header_gate::{INDEXED, Layout, PAIRED};
use key_slot::{Key, MAX_KEY_LEN, MAX_VALUE_LEN, Row, Value, encode_slot, is_narrow};
use segment::Segment;
use slot_wide::encode_wide;
use station::{CrashStation, MemStation};
use std::alloc::Global;
use std::process::Abort;

/// How many records each of at most eight segments has.
pub type Counts = [u32; 8];

/// The slot formats.
pub const FORMATS: [u32; 2] = [1, 2];

/// The layout in which a store of this format may have this greatest height.
pub fn layout_of(format: u32, height: u32, journal: u32) -> Layout
    requires format { 1 ≤ format × (format ≤ 2) }
    requires height { height ≤ 4 }
    ensures { result ≡ record { hmax = (height + format - 1); journal = journal; version = 2; format = format } }
{
    Layout {
        hmax: height + format - 1,
        journal,
        version: 2,
        format,
    }
}

/// The record of a number; the keys ascend with the numbers. One of format 2 is as long as one may be.
pub fn row(rt: &impl Abort, number: u32, format: u32) -> Row {
    let [_, high, middle, low] = number.to_be_bytes();
    let mut key = [b'k'; MAX_KEY_LEN];
    key[1..4].copy_from_slice(&[high, middle, low]);
    let mut value = [b'v'; MAX_VALUE_LEN];
    value[1] = low;
    let (key_len, value_len) = if format == 1 {
        (4, 2)
    } else {
        (MAX_KEY_LEN, MAX_VALUE_LEN)
    };
    Row {
        key: Key::from_bytes(&key[..key_len]).expect(rt, "a key"),
        value: Value::from_bytes(&value[..value_len]).expect(rt, "a value"),
    }
}

// The offset of a segment: behind the header and a page of the journal's table with its images, twice where there are two.
fn offset_of(rt: &impl Abort, layout: Layout, region: u32, segment: u32) -> usize {
    assert!(rt; layout.hmax <= 7 && layout.journal <= 32 && region <= 2 && segment <= 128);
    assert!(rt; layout.format <= 2);
    let journal = 1 + layout.journal;
    let journals = if layout.version == PAIRED {
        2 * journal
    } else {
        journal
    };
    4096 * (1 + journals + (region << layout.hmax) + layout.format * segment) as usize
}

// The bytes behind the regions: a page for an index of up to 32 segments, where there is one.
fn area_of(layout: Layout) -> usize
    ensures { result ≤ 4096 }
{
    if layout.version >= INDEXED { 4096 } else { 0 }
}

/// Lays bytes over a file.
pub fn lay(rt: &impl Abort, file: &mut [u8], at: usize, bytes: &[u8])
    ensures { length file.new ≡ length file.old }
{
    assert!(rt; at <= file.len() && bytes.len() <= file.len() - at);
    file[at..at + bytes.len()].copy_from_slice(bytes);
}

/// A file of this layout and height, whose live region 0 has segments of that many records, with the numbers from 1 on.
pub fn file_of(
    rt: &impl Abort,
    alloc: Global,
    layout: Layout,
    height: u32,
    counts: Counts,
) -> Vec<u8> {
    let end = offset_of(rt, layout, 2, 0);
    assert!(rt; end < 2000000);
    let mut file = vec![in alloc; 0; end + area_of(layout)].expect(rt, "memory");
    lay_header(rt, &mut file, layout, height);
    let mut number = 0;
    for (i, count) in counts.iter().enumerate() {
        assert!(rt; i < 16 && number < 1000 && *count <= 64);
        let offset = offset_of(rt, layout, 0, i as u32);
        lay_rows(rt, &mut file, layout.format, offset, number, *count);
        number += *count;
    }
    file
}

// Lays the header of a store of this layout and height, whose live region is 0, over zeros.
fn lay_header(rt: &impl Abort, file: &mut [u8], layout: Layout, height: u32) {
    lay(rt, file, 3072, b"PMASTORE");
    lay(rt, file, 3080, &layout.version.to_le_bytes());
    lay(rt, file, 3084, &layout.hmax.to_le_bytes());
    lay(rt, file, 3088, &layout.journal.to_le_bytes());
    lay(rt, file, 1024, &height.to_le_bytes());
    lay(rt, file, 1028, &layout.format.to_le_bytes());
}

// Lays that many records into a segment, with the numbers behind `before`.
fn lay_rows(rt: &impl Abort, file: &mut [u8], format: u32, offset: usize, before: u32, count: u32) {
    assert!(rt; format <= 2 && offset < 2000000 && before < 2000 && count <= 64);
    for i in 0..count {
        let row = row(rt, before + i + 1, format);
        lay_row(rt, file, offset + (64 * format * i) as usize, &row);
    }
}

// Lays a record over a file, in a slot of format 1 where that has room for it.
fn lay_row(rt: &impl Abort, file: &mut [u8], at: usize, row: &Row) {
    if is_narrow(row) {
        lay(rt, file, at, &encode_slot(Some(row)));
    } else {
        lay(rt, file, at, &encode_wide(Some(row)));
    }
}

/// Sees that the live region has the records with the numbers from `first` up to `last` of the layout's format, in segments of
/// the file's, and answers the height and how many each segment has.
pub fn see_records(
    rt: &impl Abort,
    file: &[u8],
    layout: Layout,
    first: u32,
    last: u32,
) -> (u32, Counts) {
    assert!(rt; file.len() >= offset_of(rt, layout, 2, 0));
    assert!(rt; file.len() >= 8192 && last < 1000);
    let live = file[0] % 2;
    let height = file[1024 + 1024 * live as usize] as u32;
    let format = file[1028 + 1024 * live as usize] as u32;
    assert!(rt; height <= 3 && (format == 1 || format == 2));
    let size = 4096 * format as usize;
    let mut laid = layout;
    laid.format = format;
    let mut counts = [0; 8];
    let mut number = first;
    for segment in 0..1u32 << height {
        let offset = offset_of(rt, laid, live as u32, segment);
        assert!(rt; segment < 8 && offset <= file.len() && size <= file.len() - offset);
        let rows = Segment::decode(&file[offset..offset + size]).expect(rt, "a segment");
        for i in 0..rows.len() {
            let Row { key, value } = rows.row(i);
            let wanted = row(rt, number, layout.format);
            assert!(rt;
                key == wanted.key && value == wanted.value,
                "record {i} of {segment}"
            );
            assert!(rt; number <= last);
            number += 1;
        }
        counts[segment as usize] = rows.len();
    }
    assert_eq!(rt; number, last + 1);
    (height, counts)
}

/// A station that holds a file, with notes of all its calls.
pub fn noting(rt: &impl Abort, alloc: Global, file: &[u8]) -> CrashStation {
    assert!(rt; file.len() < 2000000);
    let inner = MemStation::new(alloc, file, file.len(), 0, &[], None).expect(rt, "memory");
    CrashStation::new(alloc, inner, 400, 1000000).expect(rt, "memory")
}
