//! What a command asks of the cursors.

ghost use Rattle.std.specs.Prelude.{◌≡◌, Option, Some};
ghost use Rattle.std.specs.FinMap.{get, remove};
ghost use Rattle.station.specs.View.{Told};
ghost use Rattle.command_text.specs.CursorLines.{open_line, next_line, close_line};
ghost use Rattle.cursor_set.specs.SetAnswers.{told_by};
ghost use Rattle.map_model.specs.Cursors.{Cursor, after_open};
ghost use Rattle.pma_store.specs.StoreSeeks.{kept_region};
ghost use Rattle.pma_store.specs.StoreView.{IsOpenOn};
ghost use Rattle.range_scan.specs.SeekReads.{ReadsNear, ReadsBehind, earlier, later};
ghost use Rattle.pma_engine.specs.Carrying.{with_cursors, AsksCursors, Executes};
ghost use Rattle.pma_engine.specs.Replies.{one_line};

use command_text::{Command, Reply};
use cursor_set::{CursorSet, Opened, Step};
use key_slot::Key;
use pma_store::Metered;
use segment::StoreFault;
use station::Station;

/// Does what a command asks of the cursors, and answers the line of its reply.
///
/// Nothing is written. After a fault the store is closed, and the cursors are as before.
pub(crate) fn ask_cursors<S: Station>(
    store: &mut Metered,
    cursors: &mut CursorSet,
    station: &mut S,
    command: &Command,
) -> Result<Reply, StoreFault>
    requires open { IsOpenOn store.old.store (S.view station.old) }
    requires asks { AsksCursors command.now }
    ensures { Executes command.now (one_line result) (with_cursors store.old cursors.old) (with_cursors store.new cursors.new)
        (S.view station.old) (S.view station.new) }
{
    match command {
        Command::Open { name, low, high } => Ok(open_cursor(cursors, name, *low, *high)),
        Command::Next(name) => step_cursor(store, cursors, station, name),
        Command::Prev(name) => step_cursor_back(store, cursors, station, name),
        Command::Close(name) => Ok(close_cursor(cursors, name)),
        _ => unreachable!(),
    }
}

// Opens a cursor, and answers the reply.
fn open_cursor(cursors: &mut CursorSet, name: &Key, low: Option<Key>, high: Option<Key>) -> Reply
    ensures line { result ≡ open_line cursors.old name.now }
    ensures after { cursors.new ≡ after_open cursors.old name.now low high }
{
    match cursors.begin(name, low, high) {
        Opened::Opened => Reply::Opened,
        Opened::Taken => Reply::CursorOpen,
        Opened::NoRoom => Reply::NoRoom,
    }
}

// The reply to a step of a cursor to its next record.
fn step_cursor<S: Station>(
    store: &mut Metered,
    cursors: &mut CursorSet,
    station: &mut S,
    name: &Key,
) -> Result<Reply, StoreFault>
    requires open { IsOpenOn store.old.store (S.view station.old) }
    ensures executes { Executes (Command.Next name.now) (one_line result) (with_cursors store.old cursors.old)
        (with_cursors store.new cursors.new) (S.view station.old) (S.view station.new) }
    ensures reads { (at : Cursor) → get cursors.old name.now ≡ Some at →
        ReadsNear (later at.low at.past) (kept_region store.old.store) result (S.view station.old) (S.view station.new) }
{
    let step = cursors.next_row(store, station, name)?;
    Ok(reply_to_step(&step))
}

// The reply to a step of a cursor to its previous record.
fn step_cursor_back<S: Station>(
    store: &mut Metered,
    cursors: &mut CursorSet,
    station: &mut S,
    name: &Key,
) -> Result<Reply, StoreFault>
    requires open { IsOpenOn store.old.store (S.view station.old) }
    ensures executes { Executes (Command.Prev name.now) (one_line result) (with_cursors store.old cursors.old)
        (with_cursors store.new cursors.new) (S.view station.old) (S.view station.new) }
    ensures reads { (at : Cursor) → get cursors.old name.now ≡ Some at →
        ReadsBehind (earlier at.past at.high) (kept_region store.old.store) result (S.view station.old) (S.view station.new) }
{
    let step = cursors.step_back(store, station, name)?;
    Ok(reply_to_step(&step))
}

// The line that tells what a step gave.
fn reply_to_step(step: &Step) -> Reply
    ensures { result ≡ next_line (told_by step.now) }
{
    match step {
        Step::Row(row) => Reply::Row(*row),
        Step::End => Reply::CursorEnd,
        Step::NoCursor => Reply::NoCursor,
    }
}

// Closes a cursor, and answers the reply.
fn close_cursor(cursors: &mut CursorSet, name: &Key) -> Reply
    ensures line { result ≡ close_line cursors.old name.now }
    ensures after { cursors.new ≡ remove cursors.old name.now }
{
    if cursors.close(name) {
        Reply::Closed
    } else {
        Reply::NoCursor
    }
}
