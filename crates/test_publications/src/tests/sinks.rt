//! Sinks one by one, and a function over any sink.

ghost use Rattle.std.specs.Prelude.{◌≡◌, ◌++◌, ◌∷◌, List, Some, IfErr, OnErr, OnOk, map};

use iopub_queue::{ListSink, Publish, Refused};
use std::alloc::{AllocError, Global};
use std::test::Fail;

/// A sink that holds so many items at most.
#[derive(Drop)]
struct Bounded<T> {
    /// How many items it holds at most.
    bound: usize,
    /// What was published, in its order.
    items: Vec<T>,
}

impl<T> Bounded<T> {
    /// A sink that holds so many items at most, and has none.
    fn new(alloc: Global, bound: usize) -> Bounded<T> {
        Bounded {
            bound,
            items: Vec::new(alloc),
        }
    }
}

impl<T> Publish for Bounded<T> {
    ghost use Rattle.std.specs.Prelude.{◌≡◌, Some, map, refl};
    ghost use Rattle.std.proofs.Common.{◌∙◌};

    type Item = T;

    ghost sink = { record {
      items = λ sink. map Some sink.items.items;
      may_refuse = λ _. Unit;
      is_same = λ a b. b.bound ≡ a.bound;
    } };

    fn publish(&mut self, item: T) -> Result<(), Refused<T>> {
        if self.items.len() >= self.bound {
            return Err(Refused { item });
        }
        match self.items.push(item) {
            Ok(()) => Ok(()),
            Err(failed) => Err(Refused { item: failed.value }),
        }
    }

    ghost laws = { record {
      same_itself = λ _. refl;
      same_on = λ a b c ab bc. bc ∙ ab;
      same_may_refuse = λ _ _ _. (λ _. tt, λ _. tt);
    } };
}

/// Publishes items one after the other, up to the first that is refused. What this promises follows from what
/// every sink promises.
pub(crate) fn publish_each<P: Publish>(
    sink: &mut P,
    items: Vec<P::Item>,
) -> Result<(), Refused<P::Item>>
where
    P::Item: Drop,
    ensures published { OnOk result (P.sink.items sink.new ≡ P.sink.items sink.old ++ map Some items.items) }
    ensures front { IfErr result (λ refused. (front : List P.Item) × (rest : List P.Item)
        × (items.items ≡ front ++ refused.item ∷ rest)
        × (P.sink.items sink.new ≡ P.sink.items sink.old ++ map Some front)) }
    ensures allowed { OnErr result (P.sink.may_refuse sink.old) }
    ensures same { P.sink.is_same sink.old sink.new }
{
    for item in items {
        sink.publish(item)?;
    }
    Ok(())
}

/// Whether a list sink keeps these items, published one after the other.
fn are_kept(alloc: Global, items: &[u32]) -> Result<bool, AllocError> {
    let given = items.to_vec(alloc)?;
    let mut sink = ListSink::new(alloc);
    let all = publish_each(&mut sink, given).is_ok();
    let kept = sink.into_items();
    Ok(all && kept.as_slice() == items)
}

#[test]
fn list_sink_keeps_what_is_published(rt: HostRuntime) -> Result<(), Fail> {
    for items in [[].as_slice(), &[7, 3, 7]] {
        assert!(rt; are_kept(rt.alloc(), items)?, "{items:?}");
    }
    Ok(())
}

/// Of three items that are published one after the other to a sink with this bound: whether it keeps as many as its
/// bound allows, and the next one comes back.
fn next_comes_back(alloc: Global, bound: usize) -> Result<bool, AllocError> {
    let items = [5u32, 6, 7];
    let given = items.to_vec(alloc)?;
    let mut sink = Bounded::new(alloc, bound);
    let back = match publish_each(&mut sink, given) {
        Ok(()) => None,
        Err(refused) => Some(refused.item),
    };
    let kept = items.get(..bound) == Some(sink.items.as_slice());
    Ok(kept && back == items.get(bound).copied())
}

#[test]
fn bound_refuses_each_item_in_turn(rt: HostRuntime) -> Result<(), Fail> {
    for bound in 0..=3 {
        assert!(rt;
            next_comes_back(rt.alloc(), bound)?,
            "with a bound of {bound}"
        );
    }
    Ok(())
}

/// The words of a refusal, and after them its parts.
fn words_of(alloc: Global, refused: &Refused<u32>) -> Result<String, AllocError> {
    format!(in alloc; "{refused}: {refused:?}")
}

#[test]
fn refusal_says_so(rt: HostRuntime) -> Result<(), Fail> {
    let words = words_of(rt.alloc(), &Refused { item: 5 })?;
    assert_eq!(rt; words.as_str(), "the item was refused: Refused { item: 5 }");
    Ok(())
}
