//! The calls that only look: get, scan, check and probe.
//!
//! The index names the one segment to which a key belongs. What is read of it stands in the store's page, or in the caller's.

ghost use Rattle.std.specs.Prelude.{◌≡◌, ◌^◌, ◌<◌, ◌≤◌, false, length, OnOk, IfErr, IsErrOf};
ghost use Rattle.station.specs.View.{Told, Rose};
ghost use Rattle.density_rule.specs.Windows.{count_in};
ghost use Rattle.key_slot.specs.Record.{IsAscending};
ghost use Rattle.key_slot.specs.declared.sizes.TheConstants.{MAX_VALUE_LEN};
ghost use Rattle.map_model.specs.Array.{Array, rows, segment_for};
ghost use Rattle.range_scan.specs.Sweeping.{first_for, last_for};
ghost use Rattle.veb_index.specs.Arrays.{IsIndexOf};
ghost use Rattle.pma_store.specs.Looking.{Gets, BeginsSweep, Checks, Probes};
ghost use Rattle.pma_store.specs.StoreView.{IsOpenOn};

use crate::answers::Checked;
use crate::store::Store;
use block_touch::{Probe, bound};
use density_rule::Window;
use key_slot::{Key, Value};
use range_scan::{Region, SegmentBuffer, Sweep, check_region};
use segment::StoreFault;
use station::Station;
use veb_index::{Index, search};
use window_tally::Tally;

impl Store {
    /// The value that is bound to the key, by a read of the segment to which the key belongs.
    pub fn get<S: Station>(
        &mut self,
        station: &mut S,
        key: &Key,
    ) -> Result<Option<Value>, StoreFault>
        requires open { IsOpenOn self.old (S.view station.old) }
        // `Gets` says what a get does. On Ok the store is open on its file.
        ensures got { Gets key.now result self.old self.new (S.view station.old) (S.view station.new) }
        ensures open { OnOk result (IsOpenOn self.new (S.view station.new)) }
        // `Failed` comes only if the count of disk faults rose.
        ensures failed { IsErrOf result StoreFault.Failed →
            Rose (S.view station.old).disk_faults (S.view station.new).disk_faults }
        // If the station tells its bytes, no other fault comes than `Failed`.
        ensures damaged { IfErr result (λ fault. Told (S.view station.old) → fault ≡ StoreFault.Failed) }
    {
        let segment = find_segment(&self.array.index, key);
        let region = Region {
            layout: &self.array.place.layout,
            number: self.array.place.region,
            tally: &self.array.tally,
        };
        match self.array.page.get(station, &region, segment, key) {
            Ok(Some(value)) => Ok(Some(copied(value))),
            Ok(None) => Ok(None),
            Err(fault) => {
                self.array.closed = true;
                Err(fault)
            }
        }
    }

    /// A scan of the records whose keys are not below `low` and below `high`, in ascending order, at most `limit` of them.
    /// It reads into the page.
    pub fn scan<'a>(
        &'a self,
        page: &'a mut SegmentBuffer,
        low: Option<Key>,
        high: Option<Key>,
        limit: u32,
    ) -> Sweep<'a>
        requires open { self.now.closed ≡ false }
        ensures { BeginsSweep low high limit result self.now }
    {
        let first = first_segment(&self.array.index, &low);
        let last = last_segment(&self.array.index, self.array.tally.height(), &high);
        Sweep::over(
            self.array.place.layout,
            self.array.place.region,
            &self.array.tally,
            page,
            first,
            last,
            low,
            high,
            limit,
        )
    }

    /// Reads all segments in order, and answers the number of records and the height.
    pub fn check<S: Station>(&mut self, station: &mut S) -> Result<Checked, StoreFault>
        requires open { IsOpenOn self.old (S.view station.old) }
        // `Checks` says what a check does. On Ok the store is open on its file.
        ensures checked { Checks result self.old self.new (S.view station.old) (S.view station.new) }
        ensures open { OnOk result (IsOpenOn self.new (S.view station.new)) }
        // `Failed` comes only if the count of disk faults rose.
        ensures failed { IsErrOf result StoreFault.Failed →
            Rose (S.view station.old).disk_faults (S.view station.new).disk_faults }
        // If the station tells its bytes, no other fault comes than `Failed`.
        ensures damaged { IfErr result (λ fault. Told (S.view station.old) → fault ≡ StoreFault.Failed) }
    {
        let height = self.array.tally.height();
        match check_region(
            station,
            self.array.place.layout,
            self.array.place.region,
            &self.array.tally,
            &mut self.array.page,
        ) {
            Ok(records) => Ok(Checked { records, height }),
            Err(fault) => {
                self.array.closed = true;
                Err(fault)
            }
        }
    }

    /// The segment to which the key belongs, how many nodes of the index the search for it visited, and how many blocks of
    /// `block` nodes these touch, with the bound on that. Position 0 begins a block.
    pub fn probe(&mut self, key: &Key, block: u32) -> Probe
        requires open { self.old.closed ≡ false }
        requires block { 1 ≤ block }
        // It answers the segment to which the key belongs in every file for which the store stands, which is one of the store's
        // on every station; the height, as the number of nodes that its search visits; how many blocks of `block` nodes these
        // touch, where position 0 begins a block; and the bound on that, which isn't passed. At height 0 all four are 0. The
        // store stays.
        ensures probed { Probes key.now block result self.old }
        ensures kept { self.new ≡ self.old }
    {
        let array = &self.array;
        let height = array.tally.height();
        let mut nodes = array.index.view();
        let segment = search(&mut nodes, key);
        Probe {
            segment,
            nodes: nodes.trace().len(),
            blocks: nodes.trace().blocks(block, 0),
            bound: bound(height, block),
        }
    }
}

// A value with these bytes.
fn copied(bytes: &[u8]) -> Value
    requires { length bytes.now ≤ MAX_VALUE_LEN }
    ensures { result ≡ bytes.now }
{
    Value::from_bytes(bytes).unwrap()
}

/// The segment to which the key belongs.
pub(crate) fn find_segment(index: &Index, key: &Key) -> u32
    ensures within { result < 2 ^ index.now.height }
    ensures found { (segments : Array) → IsIndexOf index.now segments → IsAscending (rows segments) →
        result ≡ segment_for segments key.now }
{
    search(&mut index.view(), key)
}

/// The segment in which a scan from a lower bound on begins.
pub(crate) fn first_segment(index: &Index, low: &Option<Key>) -> u32
    ensures within { result < 2 ^ index.now.height }
    ensures first { (segments : Array) → IsIndexOf index.now segments → IsAscending (rows segments) →
        result ≡ first_for low.now segments }
{
    match low {
        Some(low) => find_segment(index, low),
        None => 0,
    }
}

/// The last segment in which a scan below an upper bound may find a record, in a store of the index's height.
pub(crate) fn last_segment(index: &Index, height: u32, high: &Option<Key>) -> u32
    requires height { height ≡ index.now.height }
    requires low { height ≤ 17 }
    ensures within { result < 2 ^ index.now.height }
    ensures last { (segments : Array) → IsIndexOf index.now segments → IsAscending (rows segments) →
        result ≡ last_for high.now segments }
{
    match high {
        Some(high) => find_segment(index, high),
        None => (1 << height) - 1,
    }
}

/// How many records the store keeps for a segment.
pub(crate) fn kept_count(tally: &Tally, segment: u32) -> u32
    requires { segment < 2 ^ tally.now.height }
    ensures { result ≡ count_in tally.now.counts 0 segment }
{
    tally.count(Window {
        height: 0,
        number: segment,
    })
}
