//! A stream that is read and written as one link, as a socket is. It owns the stream, and touches
//! nothing else. Begin with `StreamLink::read` and `StreamLink::put`; the work is done in
//! `link_state`.

ghost use Rattle.std.specs.Prelude.{◌≡◌, ◌≤◌, ◌<◌, ◌↔◌, ◌⊎◌, None, false, length, refl, take, true};
ghost use Rattle.std.specs.Io.KnownBytes.{Appends, Consumes, IsAtEnd};
ghost use Rattle.agent_ports.specs.Counts.{Rose};
ghost use Rattle.agent_ports.specs.Sides.{taken_by, IfBytes, sent_part, IfCut, IsCut};

use crate::link_state::LinkState;
use agent_ports::{Got, Link, Sent, Sink, Source};
use std::io::{Read, Write};
use std::marker::Model;

/// One stream that is read and written, as a socket, as a link. As a link it doesn't show what it
/// holds; its own calls say what they do to the stream.
#[derive(Drop)]
pub struct StreamLink<S> {
    stream: S,
    state: LinkState,
}

impl<S> Model for StreamLink<S> {
    ghost use Rattle.std_link.specs.Streams.{AtStream};

    ghost Value = { AtStream S };

    ghost view = { λ link. record {
      stream = link.stream;
      ended = link.state.ended;
      read_faults = link.state.read_faults;
      write_faults = link.state.write_faults;
    } };
}

impl<S: Read + Write> StreamLink<S> {
    /// A link over the stream, of which no call has failed.
    pub fn new(stream: S) -> Self
        ensures link { result
            ≡ record { stream = stream; ended = false; read_faults = 0; write_faults = 0 } }
        ensures input { ⟦<StreamLink<S> as Source>⟧.input result
            ≡ record { bytes = None; faults = 0 } }
        ensures output { ⟦<StreamLink<S> as Sink>⟧.output result
            ≡ record { bytes = None; faults = 0 } }
    {
        StreamLink {
            stream,
            state: LinkState::new(),
        }
    }
}

impl<S: Read + Write> Source for StreamLink<S> {
    ghost input = { λ link. record { bytes = None; faults = link.read_faults } };

    ghost beside_input = { λ link. record { bytes = None; faults = link.write_faults } };

    /// What the stream gave is what this gives. Behind the end the stream isn't asked again.
    fn read(&mut self, buf: &mut [u8]) -> Got
        requires { 0 < length buf.old }
        ensures count { IfBytes result (λ n. (1 ≤ n) × (n ≤ length buf.old)) }
        ensures taken { Consumes (S.remaining self.old.stream) (S.remaining self.new.stream)
            (take (taken_by result) buf.new) }
        ensures end { result ≡ Got.End
            → (self.old.ended ≡ true) ⊎ IsAtEnd (S.remaining self.new.stream) }
        ensures ended { (result ≡ Got.End) ↔ (self.new.ended ≡ true) }
        ensures ever_after { self.old.ended ≡ true → self.new ≡ self.old }
        ensures failed { result ≡ Got.Failed → Rose self.old.read_faults self.new.read_faults }
        ensures faults { self.old.read_faults ≤ self.new.read_faults }
        ensures beside { self.new.write_faults ≡ self.old.write_faults }
    {
        self.state.read(&mut self.stream, buf)
    }
}

impl<S: Read + Write> Sink for StreamLink<S> {
    ghost output = { λ link. record { bytes = None; faults = link.write_faults } };

    ghost beside_output = { λ link. record { bytes = None; faults = link.read_faults } };

    /// The stream is given the bytes, or a prefix of them where it failed.
    fn put(&mut self, bytes: &[u8]) -> Sent
        ensures cut { IfCut result (λ sent. sent ≤ length bytes.now) }
        ensures written { Appends (S.contents self.old.stream) (S.contents self.new.stream)
            (sent_part bytes.now result) }
        ensures failed { IsCut result → Rose self.old.write_faults self.new.write_faults }
        ensures faults { self.old.write_faults ≤ self.new.write_faults }
        ensures beside { (self.new.read_faults ≡ self.old.read_faults)
            × (self.new.ended ≡ self.old.ended) }
    {
        self.state.put(&mut self.stream, bytes)
    }
}

impl<S: Read + Write> Link for StreamLink<S> {
    ghost output_beside = { λ _. refl };

    ghost input_beside = { λ _. refl };
}
