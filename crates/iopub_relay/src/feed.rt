//! The relay over a plain list of events.

ghost use Rattle.std.specs.Prelude.{◌≡◌, ℕ, map, IfOk, OnOk};
ghost use Rattle.iopub_relay.specs.Life.{life};
ghost use Rattle.iopub_relay.specs.Feed.{WriterIsFed, writer_of, AreRisingIds};
ghost use Rattle.iopub_relay.specs.Table.{ServesEvent};
ghost use Rattle.iopub_relay.specs.declared.table.EventOutcome.{EventOutcome};

use crate::subscriber::Subscriber;
use crate::table::{EventOutcome, Table};
use iopub_event::Event;
use std::alloc::{AllocError, Global};
use zmtp_wire::Outlet;

/// Serves events one after the other, and answers the subscribers that are there after them, by rising ids, each with
/// its writer. The writer got the text of each message of the subscriber's life that matched the topics held at that
/// time. It also got the PONGs that the subscriber asked for, each at its place. If a write failed or took nothing, it
/// got a beginning of that.
///
/// # Errors
///
/// If memory was refused, also for a topic.
pub fn feed_core<W: Outlet + Drop>(
    alloc: Global,
    events: Vec<Event<W>>,
) -> Result<Vec<(u64, W)>, AllocError>
    ensures rising { IfOk result (λ left. AreRisingIds left.items) }
    ensures fed { IfOk result (λ left. (id : ℕ)
        → WriterIsFed W.outflow id (life id events.items) (writer_of id left.items)) }
{
    let mut table = Table::new(alloc);
    for event in events {
        serve_or_fail(&mut table, event)?;
    }
    writers_of(alloc, table.into_rows())
}

/// The subscribers, each with its writer.
///
/// # Errors
///
/// If memory was refused.
fn writers_of<W: Drop>(alloc: Global, rows: Vec<Subscriber<W>>) -> Result<Vec<(u64, W)>, AllocError>
    ensures { IfOk result (λ left. left.items ≡ map (λ row. (row.id, row.writer)) rows.items) }
{
    let mut left = Vec::with_capacity(alloc, rows.len())?;
    for row in rows {
        left.push_reserved((row.id, row.writer));
    }
    Ok(left)
}

/// Serves an event.
///
/// # Errors
///
/// If memory was refused for what the event asks for.
fn serve_or_fail<W: Outlet + Drop>(table: &mut Table<W>, event: Event<W>) -> Result<(), AllocError>
    ensures { OnOk result (ServesEvent W.outflow table.old table.new event EventOutcome.Done) }
{
    match table.serve(event) {
        EventOutcome::Done => Ok(()),
        EventOutcome::NoTopic(_) | EventOutcome::NoRoom(_) => Err(AllocError),
    }
}
