//! A link in memory, for tests: it gives the bytes of a list in pieces of a given size, keeps what
//! is written, and fails as planned. No call reaches the system. Begin with `MemLink::new`, or with
//! `PlannedLink` for one that is opened later; `specs/Plans` says when a call fails.

ghost use Rattle.std.specs.Prelude.{◌≡◌, ◌≤◌, ◌<◌, ◌+◌, ◌^◌, ◌-◌, ◌↔◌, ◌⊎◌, IsTrue, [], length};
ghost use Rattle.std.specs.Prelude.{take, drop, Some, None, IfSome, vec_len, Contains, min, max};
ghost use Rattle.std.specs.{Prelude.refl, Bool.{OnTrue, OnFalse}};
ghost use Rattle.agent_ports.specs.Counts.{Rose, RoseBy};
ghost use Rattle.agent_ports.specs.Sides.{Side, followed_by, with_bytes, taken_by, IfBytes};
ghost use Rattle.agent_ports.specs.Sides.{sent_part, IfCut, IsCut};

use crate::fault_plan::FaultPlan;
use crate::{Got, Link, Sent, Sink, Source};
use std::alloc::Global;

/// Gives the bytes of a list, a limited number a read.
#[derive(Drop)]
pub struct MemSource {
    bytes: Vec<u8>,
    taken: usize,
    piece: usize,
    plan: FaultPlan,
    ghost within: { taken ≤ vec_len bytes },
    ghost whole: { 1 ≤ piece },
}

impl MemSource {
    ghost use Rattle.agent_ports.specs.Mem.Plans.{source_plan};

    /// A source of these bytes. No read gives more of them than `piece`, or than one where that is
    /// 0, and the reads of these numbers, from 0, fail.
    pub fn new(bytes: Vec<u8>, piece: usize, failing: Vec<u64>) -> Self
        ensures input { ⟦<MemSource as Source>⟧.input result
            ≡ record { bytes = Some bytes.items; faults = 0 } }
        ensures plan { source_plan result
            ≡ record { failing = failing.items; calls = 0; size = max piece 1 } }
    {
        MemSource {
            bytes,
            taken: 0,
            piece: piece.max(1),
            plan: FaultPlan::new(failing),
        }
    }
}

impl Source for MemSource {
    ghost use Rattle.agent_ports.specs.{Plans.{Fails, after_call}, Mem.Plans.source_plan};

    ghost input = { λ s.
        record { bytes = Some (drop s.taken s.bytes.items); faults = s.plan.faults } };

    ghost beside_input = { λ _. record { bytes = None; faults = 0 } };

    fn read(&mut self, buf: &mut [u8]) -> Got
        requires { 0 < length buf.old }
        ensures count { IfBytes result (λ n. (1 ≤ n) × (n ≤ length buf.old)) }
        ensures taken { (⟦<MemSource as Source>⟧.input self.old).bytes
            ≡ followed_by (take (taken_by result) buf.new)
            (⟦<MemSource as Source>⟧.input self.new).bytes }
        ensures end { result ≡ Got.End
            → IfSome (⟦<MemSource as Source>⟧.input self.old).bytes (λ rest. rest ≡ []) }
        ensures failed { result ≡ Got.Failed → Rose (⟦<MemSource as Source>⟧.input self.old).faults
            (⟦<MemSource as Source>⟧.input self.new).faults }
        ensures faults { (⟦<MemSource as Source>⟧.input self.old).faults
            ≤ (⟦<MemSource as Source>⟧.input self.new).faults }
        ensures beside { ⟦<MemSource as Source>⟧.beside_input self.new
            ≡ ⟦<MemSource as Source>⟧.beside_input self.old }

        // What the plan says.
        ensures planned { (result ≡ Got.Failed) ↔ Fails (source_plan self.old) }
        ensures piece { IfBytes result (λ n. IfSome (⟦<MemSource as Source>⟧.input self.old).bytes
            (λ rest. n ≡ min (min (length rest) (length buf.old)) (source_plan self.old).size)) }
        ensures calls { source_plan self.new ≡ after_call (source_plan self.old) }
    {
        if self.plan.next_fails() {
            return Got::Failed;
        }
        let rest = &self.bytes[self.taken..];
        let count = rest.len().min(buf.len()).min(self.piece);
        if count == 0 {
            return Got::End;
        }
        buf[..count].copy_from_slice(&rest[..count]);
        self.taken += count;
        Got::Bytes(count)
    }
}

/// Keeps what is written to it.
#[derive(Drop)]
pub struct MemSink {
    bytes: Vec<u8>,
    kept: usize,
    plan: FaultPlan,
}

impl MemSink {
    ghost use Rattle.agent_ports.specs.Mem.Plans.{sink_plan};

    /// A sink with no bytes. The writes of these numbers, from 0, fail after at most `kept` bytes.
    pub fn new(alloc: Global, kept: usize, failing: Vec<u64>) -> Self
        ensures output { ⟦<MemSink as Sink>⟧.output result
            ≡ record { bytes = Some []; faults = 0 } }
        ensures plan { sink_plan result
            ≡ record { failing = failing.items; calls = 0; size = kept } }
    {
        MemSink {
            bytes: Vec::new(alloc),
            kept,
            plan: FaultPlan::new(failing),
        }
    }

    /// What was written so far.
    pub fn written(&self) -> &[u8]
        ensures { (⟦<MemSink as Sink>⟧.output self.now).bytes ≡ Some result.now }
    {
        &self.bytes
    }
}

impl Sink for MemSink {
    ghost use Rattle.agent_ports.specs.{Plans.{Fails, after_call}, Mem.Plans.sink_plan};

    ghost output = { λ s. record { bytes = Some s.bytes.items; faults = s.plan.faults } };

    ghost beside_output = { λ _. record { bytes = None; faults = 0 } };

    /// Running out of memory is a fault like any other.
    fn put(&mut self, bytes: &[u8]) -> Sent
        ensures cut { IfCut result (λ sent. sent ≤ length bytes.now) }
        ensures written { (⟦<MemSink as Sink>⟧.output self.new).bytes
            ≡ with_bytes (⟦<MemSink as Sink>⟧.output self.old).bytes (sent_part bytes.now result) }
        ensures failed { IsCut result → Rose (⟦<MemSink as Sink>⟧.output self.old).faults
            (⟦<MemSink as Sink>⟧.output self.new).faults }
        ensures faults { (⟦<MemSink as Sink>⟧.output self.old).faults
            ≤ (⟦<MemSink as Sink>⟧.output self.new).faults }
        ensures beside { ⟦<MemSink as Sink>⟧.beside_output self.new
            ≡ ⟦<MemSink as Sink>⟧.beside_output self.old }

        // What the plan says, but where memory is wanted.
        ensures planned { Fails (sink_plan self.old) → IsCut result }
        ensures kept { IfCut result (λ sent. (sent ≡ 0) ⊎ (Fails (sink_plan self.old)
            × (sent ≡ min (sink_plan self.old).size (length bytes.now)))) }
        ensures calls { sink_plan self.new ≡ after_call (sink_plan self.old) }
    {
        let fails = self.plan.next_fails();
        let part = if fails {
            &bytes[..self.kept.min(bytes.len())]
        } else {
            bytes
        };
        if self.bytes.extend_from_slice(part).is_err() {
            self.plan.raise();
            return Sent::Failed { sent: 0 };
        }
        if fails {
            return Sent::Failed { sent: part.len() };
        }
        Sent::All
    }
}

/// A link to be opened: what it gives, at most `piece` bytes a read, or one where that is 0, and
/// the reads and writes that fail, by their number from 0. A write that fails keeps nothing.
#[derive(Drop)]
pub struct PlannedLink {
    /// The bytes that it gives.
    pub gives: Vec<u8>,
    /// The most bytes that a read gives. 0 stands for one.
    pub piece: usize,
    /// The numbers, from 0, of the reads that fail.
    pub failing_reads: Vec<u64>,
    /// The numbers, from 0, of the writes that fail.
    pub failing_writes: Vec<u64>,
}

impl PlannedLink {
    ghost use Rattle.agent_ports.specs.Mem.Plans.{open_link, planned_link};

    /// The link, of which nothing was read or written so far. It takes no memory.
    pub fn open(self, alloc: Global) -> MemLink
        ensures { open_link result ≡ planned_link self }
    {
        let PlannedLink {
            gives,
            piece,
            failing_reads,
            failing_writes,
        } = self;
        let source = MemSource::new(gives, piece, failing_reads);
        MemLink::new(source, MemSink::new(alloc, 0, failing_writes))
    }
}

/// Gives the bytes of its source, and keeps what is written to its sink.
#[derive(Drop)]
pub struct MemLink {
    source: MemSource,
    sink: MemSink,
}

impl MemLink {
    ghost use Rattle.agent_ports.specs.Mem.Plans.{source_plan, sink_plan, read_plan, write_plan};

    /// A link that reads from this source and writes to this sink.
    pub fn new(source: MemSource, sink: MemSink) -> Self
        ensures input { ⟦<MemLink as Source>⟧.input result ≡ ⟦<MemSource as Source>⟧.input source }
        ensures output { ⟦<MemLink as Sink>⟧.output result ≡ ⟦<MemSink as Sink>⟧.output sink }
        ensures reads { read_plan result ≡ source_plan source }
        ensures writes { write_plan result ≡ sink_plan sink }
    {
        MemLink { source, sink }
    }

    /// What was written so far.
    pub fn written(&self) -> &[u8]
        ensures { (⟦<MemLink as Sink>⟧.output self.now).bytes ≡ Some result.now }
    {
        self.sink.written()
    }

    /// How many reads failed, and how many writes.
    pub(crate) fn faults(&self) -> (u64, u64)
        ensures reads { result.0 ≡ (⟦<MemLink as Source>⟧.input self.now).faults }
        ensures writes { result.1 ≡ (⟦<MemLink as Sink>⟧.output self.now).faults }
    {
        (self.source.plan.faults(), self.sink.plan.faults())
    }
}

impl Source for MemLink {
    ghost use Rattle.agent_ports.specs.Plans.{Fails, after_call};
    ghost use Rattle.agent_ports.specs.Mem.Plans.{read_plan, write_plan};

    ghost input = { λ l. ⟦<MemSource as Source>⟧.input l.source };

    ghost beside_input = { λ l. ⟦<MemSink as Sink>⟧.output l.sink };

    fn read(&mut self, buf: &mut [u8]) -> Got
        requires { 0 < length buf.old }
        ensures count { IfBytes result (λ n. (1 ≤ n) × (n ≤ length buf.old)) }
        ensures taken { (⟦<MemLink as Source>⟧.input self.old).bytes
            ≡ followed_by (take (taken_by result) buf.new)
            (⟦<MemLink as Source>⟧.input self.new).bytes }
        ensures end { result ≡ Got.End
            → IfSome (⟦<MemLink as Source>⟧.input self.old).bytes (λ rest. rest ≡ []) }
        ensures failed { result ≡ Got.Failed → Rose (⟦<MemLink as Source>⟧.input self.old).faults
            (⟦<MemLink as Source>⟧.input self.new).faults }
        ensures faults { (⟦<MemLink as Source>⟧.input self.old).faults
            ≤ (⟦<MemLink as Source>⟧.input self.new).faults }
        ensures beside { ⟦<MemLink as Source>⟧.beside_input self.new
            ≡ ⟦<MemLink as Source>⟧.beside_input self.old }

        // What the plan says.
        ensures planned { (result ≡ Got.Failed) ↔ Fails (read_plan self.old) }
        ensures piece { IfBytes result (λ n. IfSome (⟦<MemLink as Source>⟧.input self.old).bytes
            (λ rest. n ≡ min (min (length rest) (length buf.old)) (read_plan self.old).size)) }
        ensures calls { read_plan self.new ≡ after_call (read_plan self.old) }
        ensures writes { write_plan self.new ≡ write_plan self.old }
    {
        self.source.read(buf)
    }
}

impl Sink for MemLink {
    ghost use Rattle.agent_ports.specs.Plans.{Fails, after_call};
    ghost use Rattle.agent_ports.specs.Mem.Plans.{read_plan, write_plan};

    ghost output = { λ l. ⟦<MemSink as Sink>⟧.output l.sink };

    ghost beside_output = { λ l. ⟦<MemSource as Source>⟧.input l.source };

    fn put(&mut self, bytes: &[u8]) -> Sent
        ensures cut { IfCut result (λ sent. sent ≤ length bytes.now) }
        ensures written { (⟦<MemLink as Sink>⟧.output self.new).bytes
            ≡ with_bytes (⟦<MemLink as Sink>⟧.output self.old).bytes (sent_part bytes.now result) }
        ensures failed { IsCut result → Rose (⟦<MemLink as Sink>⟧.output self.old).faults
            (⟦<MemLink as Sink>⟧.output self.new).faults }
        ensures faults { (⟦<MemLink as Sink>⟧.output self.old).faults
            ≤ (⟦<MemLink as Sink>⟧.output self.new).faults }
        ensures beside { ⟦<MemLink as Sink>⟧.beside_output self.new
            ≡ ⟦<MemLink as Sink>⟧.beside_output self.old }

        // What the plan says, but where memory is wanted.
        ensures planned { Fails (write_plan self.old) → IsCut result }
        ensures kept { IfCut result (λ sent. (sent ≡ 0) ⊎ (Fails (write_plan self.old)
            × (sent ≡ min (write_plan self.old).size (length bytes.now)))) }
        ensures calls { write_plan self.new ≡ after_call (write_plan self.old) }
        ensures reads { read_plan self.new ≡ read_plan self.old }
    {
        self.sink.put(bytes)
    }
}

impl Link for MemLink {
    ghost output_beside = { λ _. refl };

    ghost input_beside = { λ _. refl };
}
