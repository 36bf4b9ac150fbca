//! The records next to a key, for cursors.
//!
//! Each call searches from a key, and no place in the array is kept: so a cursor stays good while the store changes.

ghost use Rattle.std.specs.Prelude.{◌≡◌, OnOk, IfErr, IsErrOf};
ghost use Rattle.station.specs.View.{Told, Rose};
ghost use Rattle.pma_store.specs.StoreSeeks.{Seeks, SeeksBack};
ghost use Rattle.pma_store.specs.StoreView.{IsOpenOn};

use crate::metered::Metered;
use crate::reads::{first_segment, last_segment};
use crate::store::Store;
use key_slot::{Key, Row};
use range_scan::{Look, Region, Seek, end_bound, first_ahead_in, last_behind_in, start_bound};
use segment::StoreFault;
use station::Station;

impl Store {
    // The record with the least key that isn't below `low`, is above `past` and is below `high`.
    pub(crate) fn seek<S: Station>(
        &mut self,
        station: &mut S,
        low: Option<Key>,
        past: Option<Key>,
        high: Option<Key>,
    ) -> Result<Option<Row>, StoreFault>
        requires open { IsOpenOn self.old (S.view station.old) }
        ensures sought { Seeks low past high result self.old self.new (S.view station.old) (S.view station.new) }
        ensures open { OnOk result (IsOpenOn self.new (S.view station.new)) }
        ensures failed { IsErrOf result StoreFault.Failed →
            Rose (S.view station.old).disk_faults (S.view station.new).disk_faults }
        ensures damaged { IfErr result (λ fault. Told (S.view station.old) → fault ≡ StoreFault.Failed) }
    {
        let start = start_bound(low, past);
        let first = first_segment(&self.array.index, &start);
        let region = Region {
            layout: &self.array.place.layout,
            number: self.array.place.region,
            tally: &self.array.tally,
        };
        let look = Look {
            start: &start,
            past: &past,
            high: &high,
        };
        match first_ahead_in(station, &region, &mut self.array.page, first, &look) {
            Ok(row) => Ok(row),
            Err(fault) => {
                self.array.closed = true;
                Err(fault)
            }
        }
    }

    // The record with the greatest key that isn't below `low`, is below `past` and is below `high`.
    fn seek_back<S: Station>(
        &mut self,
        station: &mut S,
        low: Option<Key>,
        past: Option<Key>,
        high: Option<Key>,
    ) -> Result<Option<Row>, StoreFault>
        requires open { IsOpenOn self.old (S.view station.old) }
        ensures sought { SeeksBack low past high result self.old self.new (S.view station.old) (S.view station.new) }
        ensures open { OnOk result (IsOpenOn self.new (S.view station.new)) }
        ensures failed { IsErrOf result StoreFault.Failed →
            Rose (S.view station.old).disk_faults (S.view station.new).disk_faults }
        ensures damaged { IfErr result (λ fault. Told (S.view station.old) → fault ≡ StoreFault.Failed) }
    {
        let end = end_bound(past, high);
        let last = last_segment(&self.array.index, self.array.tally.height(), &end);
        let region = Region {
            layout: &self.array.place.layout,
            number: self.array.place.region,
            tally: &self.array.tally,
        };
        let found = last_behind_in(station, &region, &mut self.array.page, last, &low, &end);
        self.array.closed = found.is_err();
        found
    }
}

impl Seek for Metered {
    ghost use Rattle.pma_store.specs.Metered.{MeteredView};
    ghost use Rattle.redo_journal.specs.Rest.{RestsAt};
    ghost use Rattle.pma_store.specs.StoreSeeks.{StandsIdle, kept_region, unclosed};

    ghost closed = { λ m. m.store.closed };

    ghost stands = { λ m. StandsIdle m.store };

    ghost rests = { λ m. RestsAt m.store.place.layout m.store.turn };

    ghost kept = { λ m. kept_region m.store };

    ghost State = { MeteredView };

    ghost state = { unclosed };

    fn first_row<S: Station>(
        &mut self,
        station: &mut S,
        low: Option<Key>,
        past: Option<Key>,
        high: Option<Key>,
    ) -> Result<Option<Row>, StoreFault> {
        self.store.seek(station, low, past, high)
    }

    fn last_row<S: Station>(
        &mut self,
        station: &mut S,
        low: Option<Key>,
        past: Option<Key>,
        high: Option<Key>,
    ) -> Result<Option<Row>, StoreFault> {
        self.store.seek_back(station, low, past, high)
    }
}
