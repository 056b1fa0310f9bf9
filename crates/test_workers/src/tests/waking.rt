//! Who publishes wakes who sleeps. Nothing else wakes the parker here, so a sink that wakes nobody would wait for ever.

use super::*;
use iopub_queue::Publish;

#[test]
fn each_publication_and_each_close_wakes(rt: HostRuntime) -> Result<(), Fail> {
    let Queue {
        shell,
        control,
        mut subscriptions,
        taker,
        parker,
    } = Queue::open(&rt, rt.alloc(), 2)?;
    let published = subscriptions.publish(Event::Attach(1, ()));
    let is_published = published.is_ok();
    drop(published);
    parker.park(&rt);
    drop(subscriptions.close());
    parker.park(&rt);
    drop((shell, control, taker, parker));
    assert!(rt; is_published);
    Ok(())
}
