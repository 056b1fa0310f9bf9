//! What has come of traffic that isn't whole, and the steps by which it grows.

ghost use Rattle.std.specs.Prelude.{◌≡◌, ◌+◌, ◌-◌, ◌<◌, ◌≤◌, ◌∷◌, ◌++◌, ℕ, List, length, take, drop, IfOk, IfErr};
ghost use Rattle.std.specs.Prelude.{OnOk, [], Ok, min};
ghost use Rattle.zmtp_wire.specs.Frame.{flags_octet, front_octets, size_bound, bodies_of};
ghost use Rattle.zmtp_wire.specs.Grammar.{AcceptsFlags, IsRefused};
ghost use Rattle.zmtp_wire.specs.Pending.{size_len, head_of, pending_octets, stage_octets, bodies_before};
ghost use Rattle.zmtp_wire.specs.Pending.{AcceptsSize, IsFront};
ghost use Rattle.zmtp_wire.specs.Pending.{IsPending, Keeps, Refuses};

use crate::fault::WireFault;
use crate::traffic::Traffic;
use crate::traffic::command::command_of;
use crate::traffic::flags::Flags;
use crate::traffic::frame::{Frame, head_len};
use crate::traffic::limits::Limits;
use crate::traffic::message::Message;
use crate::traffic::size::{SizeOctets, size_behind};
use listed::Octets;
use std::alloc::{AllocError, Global};
use std::mem;

/// How far a frame has come.
#[derive(Debug, Drop)]
pub(crate) enum Stage {
    /// Its flags are next.
    Flags,
    /// Its size is next, and these octets of it have come.
    Size(Flags, SizeOctets),
    /// Its body is next, which has this size, and these octets of it have come.
    Body(Flags, usize, Vec<u8>),
}

/// What has come of a message, or of a command, that isn't whole.
#[derive(Debug, Drop)]
pub(crate) struct Pending {
    /// How much a peer may send.
    pub(crate) limits: Limits,
    /// The message's frames that are whole.
    pub(crate) frames: Vec<Frame>,
    /// How many octets the bodies of the message's other frames may have together.
    pub(crate) left: usize,
    /// How far the next frame has come.
    pub(crate) stage: Stage,
}

/// What one step of reading did.
#[derive(Debug, Drop)]
pub(crate) struct Step {
    /// How many octets it took.
    pub(crate) taken: usize,
    /// What became whole with them.
    pub(crate) traffic: Option<Traffic>,
}

impl Stage {
    /// How many octets of the frame have come, or as many as can be counted.
    fn octets(&self) -> usize
        ensures { result ≡ min (length (stage_octets self.now)) usize.MAX }
    {
        match self {
            Stage::Flags => 0,
            Stage::Size(_, size) => 1 + size.count(),
            Stage::Body(flags, _, body) => head_len(flags.long).saturating_add(body.len()),
        }
    }
}

impl Pending {
    /// How many octets have come, or as many as can be counted.
    pub(crate) fn held(&self) -> usize
        ensures { result ≡ min (length (pending_octets self.now)) usize.MAX }
    {
        let mut held = self.stage.octets();
        for frame in self.frames.as_slice() {
            held = held.saturating_add(frame.octets());
        }
        held
    }

    /// Nothing has come yet.
    pub(crate) fn new(alloc: Global, limits: Limits) -> Pending
        ensures { result.limits ≡ limits × (pending_octets result ≡ []) × IsPending result }
    {
        Pending {
            limits,
            frames: Vec::new(alloc),
            left: limits.message,
            stage: Stage::Flags,
        }
    }

    /// Takes the next octets, as far as they belong to one frame.
    #[inline(always)]
    pub(crate) fn step(&mut self, alloc: Global, octets: &[u8]) -> Result<Step, WireFault>
        requires pending { IsPending self.old }
        requires some { 0 < length octets.now }
        ensures within { IfOk result (λ step. (0 < step.taken) × (step.taken ≤ length octets.now)) }
        ensures ok { IfOk result (λ step. Keeps self.old.limits (pending_octets self.old ++ take step.taken octets.now)
            self.new step.traffic) }
        ensures err { IfErr result (Refuses self.old.limits (pending_octets self.old ++ octets.now)) }
    {
        if let Stage::Flags = self.stage {
            return self.begin(alloc, octets);
        }
        if let Stage::Body(_, size, body) = &mut self.stage
            && octets.len() < *size - body.len()
        {
            body.extend_from_slice(octets)?;
            return Ok(Step {
                taken: octets.len(),
                traffic: None,
            });
        }
        match mem::replace(&mut self.stage, Stage::Flags) {
            Stage::Flags => self.begin(alloc, octets),
            Stage::Size(flags, size) => self.measure(alloc, flags, size, octets),
            Stage::Body(flags, size, body) => self.gather(alloc, flags, size, body, octets),
        }
    }

    /// Takes the flags octet of the next frame, and what follows it, if the size is whole.
    #[inline(always)]
    fn begin(&mut self, alloc: Global, octets: &[u8]) -> Result<Step, WireFault>
        requires front { IsFront self.old }
        requires some { 0 < length octets.now }
        ensures within { IfOk result (λ step. (0 < step.taken) × (step.taken ≤ length octets.now)) }
        ensures ok { IfOk result (λ step. Keeps self.old.limits
            (front_octets self.old.frames.items ++ take step.taken octets.now) self.new step.traffic) }
        ensures err { IfErr result (Refuses self.old.limits (front_octets self.old.frames.items ++ octets.now)) }
    {
        let flags = self.judge_flags(octets[0])?;
        let Some(size) = size_behind(flags.long, &octets[1..]) else {
            self.stage = Stage::Size(flags, SizeOctets::new());
            return Ok(Step {
                taken: 1,
                traffic: None,
            });
        };
        let at = if flags.long { 9 } else { 2 };
        self.open(alloc, flags, size, at, octets)
    }

    /// Judges the flags octet of the next frame.
    fn judge_flags(&self, octet: u8) -> Result<Flags, WireFault>
        ensures ok { IfOk result (λ flags. (octet ≡ flags_octet flags.more flags.long flags.command)
            × AcceptsFlags self.now.limits (bodies_before self.now) flags.more flags.command) }
        ensures err { IfErr result (λ fault. (after : List ℕ)
            → IsRefused self.now.limits (bodies_before self.now) (octet ∷ after) fault) }
    {
        let Some(flags) = Flags::read(octet) else {
            return Err(WireFault::Flags);
        };
        if flags.command && (flags.more || !self.frames.is_empty()) {
            return Err(WireFault::Flags);
        }
        if !flags.command && self.frames.len() >= self.limits.frames {
            return Err(WireFault::TooManyFrames);
        }
        Ok(flags)
    }

    /// Takes octets of the size, and of the body after it.
    #[inline(never)]
    fn measure(
        &mut self,
        alloc: Global,
        flags: Flags,
        size: SizeOctets,
        octets: &[u8],
    ) -> Result<Step, WireFault>
        requires front { IsFront self.old }
        requires flags { AcceptsFlags self.old.limits (bodies_before self.old) flags.more flags.command }
        requires cut { length size < size_len flags.long }
        requires some { 0 < length octets.now }
        ensures within { IfOk result (λ step. (0 < step.taken) × (step.taken ≤ length octets.now)) }
        ensures ok { IfOk result (λ step. Keeps self.old.limits (front_octets self.old.frames.items
            ++ (flags_octet flags.more flags.long flags.command ∷ size) ++ take step.taken octets.now) self.new
            step.traffic) }
        ensures err { IfErr result (Refuses self.old.limits (front_octets self.old.frames.items
            ++ (flags_octet flags.more flags.long flags.command ∷ size) ++ octets.now)) }
    {
        if !flags.long {
            return self.open(alloc, flags, usize::from(octets[0]), 1, octets);
        }
        let mut size = size;
        let taken = size.extend(octets);
        let Some(number) = size.number() else {
            self.stage = Stage::Size(flags, size);
            return Ok(Step {
                taken,
                traffic: None,
            });
        };
        self.open(alloc, flags, number, taken, octets)
    }

    /// Judges the size, which ends before the octet at `at`, and takes octets of the body.
    #[inline(always)]
    fn open(
        &mut self,
        alloc: Global,
        flags: Flags,
        size: usize,
        at: usize,
        octets: &[u8],
    ) -> Result<Step, WireFault>
        requires front { IsFront self.old }
        requires flags { AcceptsFlags self.old.limits (bodies_before self.old) flags.more flags.command }
        requires said { size < size_bound flags.long }
        requires taken { at ≤ length octets.now }
        requires some { 0 < at }
        ensures within { IfOk result (λ step. (at ≤ step.taken) × (step.taken ≤ length octets.now)) }
        ensures ok { IfOk result (λ step. Keeps self.old.limits (front_octets self.old.frames.items
            ++ head_of flags size ++ take (step.taken - at) (drop at octets.now)) self.new step.traffic) }
        ensures err { IfErr result (Refuses self.old.limits (front_octets self.old.frames.items
            ++ head_of flags size ++ drop at octets.now)) }
    {
        self.judge_size(flags, size)?;
        let behind = &octets[at..];
        if behind.len() < size {
            self.stage = Stage::Body(flags, size, Vec::from_slice(alloc, behind)?);
            return Ok(Step {
                taken: octets.len(),
                traffic: None,
            });
        }
        let body = Vec::from_slice(alloc, &behind[..size])?;
        let traffic = self.finish(alloc, flags, body)?;
        Ok(Step {
            taken: at + size,
            traffic,
        })
    }

    /// Judges the size of the next frame.
    fn judge_size(&self, flags: Flags, size: usize) -> Result<(), WireFault>
        requires front { IsFront self.now }
        requires flags { AcceptsFlags self.now.limits (bodies_before self.now) flags.more flags.command }
        requires said { size < size_bound flags.long }
        ensures ok { IfOk result (λ _. AcceptsSize self.now.limits (bodies_before self.now) flags size) }
        ensures err { IfErr result (λ fault. (after : List ℕ) →
            IsRefused self.now.limits (bodies_before self.now) (head_of flags size ++ after) fault) }
    {
        if size > self.limits.frame {
            return Err(WireFault::FrameTooLong);
        }
        if !flags.command && size > self.left {
            return Err(WireFault::MessageTooLong);
        }
        Ok(())
    }

    /// Takes octets of the body.
    #[inline(never)]
    fn gather(
        &mut self,
        alloc: Global,
        flags: Flags,
        size: usize,
        body: Vec<u8>,
        octets: &[u8],
    ) -> Result<Step, WireFault>
        requires front { IsFront self.old }
        requires accepted { AcceptsSize self.old.limits (bodies_before self.old) flags size }
        requires cut { length body.items ≤ size }
        ensures within { IfOk result (λ step. step.taken ≤ length octets.now) }
        ensures some { length body.items < size → 0 < length octets.now → IfOk result (λ step. 0 < step.taken) }
        ensures ok { IfOk result (λ step. Keeps self.old.limits (front_octets self.old.frames.items
            ++ (head_of flags size ++ body.items) ++ take step.taken octets.now) self.new step.traffic) }
        ensures err { IfErr result (Refuses self.old.limits (front_octets self.old.frames.items
            ++ (head_of flags size ++ body.items) ++ octets.now)) }
    {
        let mut body = body;
        let taken = (size - body.len()).min(octets.len());
        body.extend_from_slice(&octets[..taken])?;
        if body.len() < size {
            self.stage = Stage::Body(flags, size, body);
            return Ok(Step {
                taken,
                traffic: None,
            });
        }
        let traffic = self.finish(alloc, flags, body)?;
        Ok(Step { taken, traffic })
    }

    /// Takes a whole frame.
    #[inline(always)]
    fn finish(
        &mut self,
        alloc: Global,
        flags: Flags,
        body: Vec<u8>,
    ) -> Result<Option<Traffic>, WireFault>
        requires front { IsFront self.old }
        requires accepted { AcceptsSize self.old.limits (bodies_before self.old) flags (length body.items) }
        ensures ok { IfOk result (Keeps self.old.limits (front_octets self.old.frames.items
            ++ (head_of flags (length body.items) ++ body.items)) self.new) }
        ensures err { IfErr result (Refuses self.old.limits (front_octets self.old.frames.items
            ++ (head_of flags (length body.items) ++ body.items))) }
    {
        self.stage = Stage::Flags;
        if flags.command {
            return Ok(Some(command_of(alloc, body)?));
        }
        if flags.more {
            self.continue_with(flags.long, body)?;
            return Ok(None);
        }
        Ok(Some(self.end_with(alloc, body)?))
    }

    /// Takes a whole frame with MORE.
    fn continue_with(&mut self, long: bool, body: Vec<u8>) -> Result<(), AllocError>
        requires front { IsFront self.old }
        requires said { length body.items < size_bound long }
        requires count { length self.old.frames.items < self.old.limits.frames }
        requires frame { length body.items ≤ self.old.limits.frame }
        requires message { length body.items ≤ self.old.left }
        ensures ok { OnOk result (self.new ≡ record self.old {
          frames = self.new.frames;
          left = self.new.left;
        }) }
        ensures frames { OnOk result (self.new.frames.items ≡ self.old.frames.items
            ++ record { long = long; body = body.items } ∷ []) }
        ensures front { OnOk result (IsFront self.new) }
    {
        let len = body.len();
        let body = Octets::new(body);
        self.frames.push(Frame { long, body })?;
        self.left -= len;
        Ok(())
    }

    /// Takes a message's last frame.
    fn end_with(&mut self, alloc: Global, body: Vec<u8>) -> Result<Traffic, AllocError>
        ensures message { IfOk result (λ traffic.
            traffic ≡ Traffic.Message (bodies_before self.old ++ body.items ∷ [])) }
        ensures empty { OnOk result (self.new.frames.items ≡ []) }
        ensures rest { self.new ≡ record self.old {
          frames = self.new.frames;
          left = self.old.limits.message;
        } }
    {
        self.left = self.limits.message;
        Ok(Traffic::Message(message(alloc, &mut self.frames, body)?))
    }
}

/// Takes out the bodies of these frames, and puts the last one after them, none of them copied.
fn message(alloc: Global, frames: &mut Vec<Frame>, last: Vec<u8>) -> Result<Message, AllocError>
    ensures message { IfOk result (λ message. message ≡ bodies_of frames.old.items ++ last.items ∷ []) }
    ensures empty { OnOk result (frames.new.items ≡ []) }
{
    let mut bodies = Vec::with_capacity(alloc, frames.len() + 1)?;
    for frame in frames.drain(..) {
        bodies.push(frame.body.into_vec())?;
    }
    bodies.push(last)?;
    Ok(Message::new(bodies))
}
