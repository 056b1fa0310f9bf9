//! Reading a stream in pieces.

ghost use Rattle.std.specs.Prelude.{◌≡◌, [], ◌++◌, true, false, Some, ℕ, List, OnOk, IfErr};
ghost use Rattle.std.specs.Prelude.{length, min};
ghost use Rattle.zmtp_wire.specs.Grammar.{ReadsUpTo};
ghost use Rattle.zmtp_wire.specs.Pending.{pending_octets, IsPending};
ghost use Rattle.zmtp_wire.specs.Decoding.{Feeds, IsFaultOf};

use crate::fault::WireFault;
use crate::traffic::Traffic;
use crate::traffic::limits::Limits;
use crate::traffic::pending::Pending;
use listed::Row;
use std::alloc::Global;
use std::marker::Model;

/// What a piece of the stream brought.
#[derive(Debug, Drop)]
pub struct Fed {
    /// What became whole in this piece, in order, before the fault if there is one.
    pub traffic: Row<Traffic>,
    /// Why the rest is refused, or that no memory was left.
    pub fault: Option<WireFault>,
}

/// Reads a peer's messages and commands from the octets after its greeting, in whatever pieces they come (RFC 23,
/// "Traffic"). It keeps the octets that aren't whole traffic, no more than the limits allow and the heads of these
/// frames, and looks at each octet once.
#[derive(Debug, Drop)]
pub struct Decoder {
    /// What has come of traffic that isn't whole.
    pending: Pending,
    /// Whether a fault was answered.
    is_spent: bool,
    /// What gives the memory.
    alloc: Global,
}

impl Model for Decoder {
    ghost use Rattle.std.specs.Prelude.{◌≡◌, false};
    ghost use Rattle.zmtp_wire.specs.Decoding.{Decoding};

    ghost Value = { Decoding };

    ghost use Rattle.zmtp_wire.specs.Pending.{pending_octets, IsPending};

    ghost view = { λ decoder. record {
      limits = decoder.pending.limits;
      kept = pending_octets decoder.pending;
      spent = decoder.is_spent;
    } };

    ghost invariant = { λ decoder. decoder.is_spent ≡ false → IsPending decoder.pending };
}

impl Decoder {
    /// A decoder that has read nothing.
    pub fn new(alloc: Global, limits: Limits) -> Decoder
        ensures { result ≡ record {
          limits = limits;
          kept = [];
          spent = false;
        } }
    {
        Decoder {
            pending: Pending::new(alloc, limits),
            is_spent: false,
            alloc,
        }
    }

    /// How many octets it keeps, which aren't whole traffic, or as many as can be counted.
    pub fn held(&self) -> usize
        ensures { result ≡ min (length self.now.kept) usize.MAX }
    {
        self.pending.held()
    }

    /// Reads the next piece of the stream. After a fault every later piece gives no traffic and
    /// `WireFault::Spent`.
    pub fn feed(&mut self, piece: &[u8]) -> Fed
        ensures limits { self.new.limits ≡ self.old.limits }

        // What was kept and the piece are what was read and the rest; a fault is the rest's.
        ensures fed { self.old.spent ≡ false → Feeds self.old piece.now result.traffic result.fault self.new }

        // After a fault nothing is read.
        ensures spent { self.old.spent ≡ true → (result ≡ record {
          traffic = [];
          fault = Some WireFault.Spent;
        }) × (self.new.spent ≡ true) }
    {
        let mut traffic = Vec::new(self.alloc);
        if self.is_spent {
            return Fed {
                traffic: Row::new(traffic),
                fault: Some(WireFault::Spent),
            };
        }
        let limits = self.pending.limits;
        match read_piece(self.alloc, &mut self.pending, &mut traffic, piece) {
            Ok(()) => Fed {
                traffic: Row::new(traffic),
                fault: None,
            },
            Err(fault) => {
                self.pending = Pending::new(self.alloc, limits);
                self.is_spent = true;
                Fed {
                    traffic: Row::new(traffic),
                    fault: Some(fault),
                }
            }
        }
    }
}

/// Reads a piece to its end, or to the fault.
fn read_piece(
    alloc: Global,
    pending: &mut Pending,
    traffic: &mut Vec<Traffic>,
    piece: &[u8],
) -> Result<(), WireFault>
    requires pending { IsPending pending.old }
    requires empty { traffic.old.items ≡ [] }
    ensures limits { OnOk result (pending.new.limits ≡ pending.old.limits) }
    ensures pending { OnOk result (IsPending pending.new) }
    ensures ok { OnOk result (ReadsUpTo pending.old.limits (pending_octets pending.old ++ piece.now) traffic.new.items
        (pending_octets pending.new)) }
    ensures err { IfErr result (λ fault. (rest : List ℕ)
        × ReadsUpTo pending.old.limits (pending_octets pending.old ++ piece.now) traffic.new.items rest
        × IsFaultOf pending.old.limits rest fault) }
{
    let mut rest = piece;
    while !rest.is_empty() {
        let step = pending.step(alloc, rest)?;
        let (_, after) = rest.split_at(step.taken);
        rest = after;
        if let Some(whole) = step.traffic {
            traffic.push(whole)?;
        }
    }
    Ok(())
}
