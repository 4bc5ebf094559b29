//! A script of events that runs over the proxy.

ghost use Rattle.std.specs.Prelude.{IfOk};
ghost use Rattle.rad_replay.specs.Replaying.{IsEnd};

use crate::building::{build_reply, build_request};
use crate::datagrams::Packet;
use crate::events::ScriptEvent;
use crate::faults::{Halt, ReplayFault};
use crate::lines::{Cut, HomeLine, NasLine, StepLine, TakeLine, TurnLine};
use crate::packet_text::{PacketText, SentText};
use crate::path::{Arrival, take_in};
use crate::pieces::Pieces;
use crate::sent::{Ports, source_port};
use rad_console::{Command, EndLine, close, obey};
use rad_desk::{Inlet, OpenFault, Proxy, open};
use rad_packet::Datagram;
use rad_realms::Config;
use rad_tables::Moment;
use std::alloc::{AllocError, Global};
use std::fmt::Display;
use std::io::Write;
use std::sync::Wait;

/// The octets that every step gets in place of random ones.
const RANDOM: [u8; 16] = [0x5a; 16];

/// A running script: the proxy, the moment, and the room for a datagram. It ends with [`Script::run`], which closes the
/// proxy.
#[derive(Drop)]
pub struct Script<'a> {
    alloc: Global,
    config: &'a Config,
    proxy: Proxy,
    /// One for each home server, in the order of the configuration.
    inlets: Vec<Inlet>,
    /// What each source port of each lane sent last.
    sent: Ports,
    /// The moment of the next event.
    moment: Moment,
    /// The room for the datagram of an event.
    datagram: Vec<u8>,
}

impl<'a> Script<'a> {
    /// Makes a script at moment 0, over empty lanes.
    ///
    /// # Errors
    ///
    /// `AllocError` if memory is refused.
    pub fn new(alloc: Global, config: &'a Config) -> Result<Self, AllocError> {
        let sent = Ports::new(alloc, config.homes())?;
        match open(alloc, config) {
            Ok((proxy, inlets)) => Ok(Script {
                alloc,
                config,
                proxy,
                inlets,
                sent,
                moment: Moment::new(0).unwrap(),
                datagram: Vec::new(alloc),
            }),
            Err(OpenFault::OutOfMemory) => Err(AllocError),
        }
    }

    /// Writes the results of all events, and then what is left.
    ///
    /// # Errors
    ///
    /// The first event that has no result, as `Events`; `Memory`; or `Output`. The results before it are written.
    pub fn run<R: Wait, W: Write>(
        mut self,
        rt: &R,
        events: &[u8],
        output: &mut W,
    ) -> Result<EndLine, ReplayFault>
        ensures { IfOk result IsEnd }
    {
        let answered = self.answer_all(rt, events, output);
        let closed = self.close();
        answered?;
        let end = closed?;
        match print(output, &end) {
            Ok(()) => Ok(end),
            Err(_) => Err(ReplayFault::Output),
        }
    }

    /// Closes the proxy, and returns what is left.
    ///
    /// # Errors
    ///
    /// `Memory` if a growth is refused.
    fn close(self) -> Result<EndLine, ReplayFault>
        ensures { IfOk result IsEnd }
    {
        match close(self.alloc, self.proxy, self.inlets) {
            Ok(end) => Ok(end),
            Err(_) => Err(ReplayFault::Memory),
        }
    }

    /// Writes the results of all events, skipping empty lines and lines that begin with `#`.
    fn answer_all<R: Wait, W: Write>(
        &mut self,
        rt: &R,
        events: &[u8],
        output: &mut W,
    ) -> Result<(), ReplayFault> {
        let mut number = 0_usize;
        for line in Pieces::new(events, b'\n') {
            number = number.saturating_add(1);
            if line.is_empty() || line[0] == b'#' {
                continue;
            }
            if let Err(halt) = self.answer(rt, line, output) {
                return Err(halt.at_line(number));
            }
        }
        Ok(())
    }

    fn answer<R: Wait, W: Write>(
        &mut self,
        rt: &R,
        line: &[u8],
        output: &mut W,
    ) -> Result<(), Halt> {
        let Some(event) = ScriptEvent::parse(line) else {
            return Err(Halt::Malformed);
        };
        match event {
            ScriptEvent::Nas {
                address,
                port,
                packet,
            } => self.nas(rt, address, port, &packet, output),
            ScriptEvent::Home { lane, port, packet } => self.home(rt, lane, port, &packet, output),
            ScriptEvent::Take { lane } => self.take(lane, output),
            ScriptEvent::Step { lane } => self.step(rt, lane, output),
            ScriptEvent::Turn { lane } => self.turn(rt, lane, output),
            ScriptEvent::At { milliseconds } => self.set_moment(milliseconds),
            ScriptEvent::Console(command) => self.obey(rt, command, output),
        }
    }

    /// Makes this the moment of the following events, if it is a moment.
    fn set_moment(&mut self, milliseconds: u64) -> Result<(), Halt> {
        match Moment::new(milliseconds) {
            Some(moment) => {
                self.moment = moment;
                Ok(())
            }
            None => Err(Halt::Malformed),
        }
    }

    fn nas<R: Wait, W: Write>(
        &mut self,
        rt: &R,
        address: [u8; 4],
        port: u16,
        packet: &Packet<'_>,
        output: &mut W,
    ) -> Result<(), Halt> {
        build_request(self.config, address, packet, &mut self.datagram)?;
        let mut written = Datagram::new();
        let arrival = Arrival {
            address,
            port,
            octets: self.datagram.as_slice(),
            moment: self.moment,
        };
        let outcome = take_in(
            rt,
            self.alloc,
            self.config,
            &self.proxy,
            arrival,
            &mut written,
        );
        let written = PacketText::new(written.bytes());
        print(output, &NasLine { outcome, written })
    }

    fn home<R: Wait, W: Write>(
        &mut self,
        rt: &R,
        lane: u16,
        port: u16,
        packet: &Packet<'_>,
        output: &mut W,
    ) -> Result<(), Halt> {
        build_reply(
            self.config,
            &self.sent,
            lane,
            port,
            packet,
            &mut self.datagram,
        )?;
        if lane >= self.proxy.lanes() {
            return Err(Halt::Malformed);
        }
        let outcome = self.proxy.hear(
            rt,
            self.alloc,
            lane,
            self.moment,
            port,
            self.datagram.as_slice(),
        );
        print(output, &HomeLine { lane, outcome })
    }

    fn step<R: Wait, W: Write>(&mut self, rt: &R, lane: u16, output: &mut W) -> Result<(), Halt> {
        if lane >= self.proxy.lanes() {
            return Err(Halt::Malformed);
        }
        let mut sent = Datagram::new();
        let action = self.proxy.step(rt, lane, self.moment, RANDOM, &mut sent);
        self.sent.keep(lane, &action, &sent);
        let port = if self.has_ports(lane) {
            source_port(&action)
        } else {
            None
        };
        let packet = PacketText::new(sent.bytes());
        let sent = SentText { packet, port };
        print(output, &StepLine { action, sent })
    }

    /// Returns whether a lane has several source ports, so that the lines print them.
    fn has_ports(&self, lane: u16) -> bool {
        match self.config.homes().get(usize::from(lane)) {
            Some(home) => home.limits().numbers().ports > 1,
            None => false,
        }
    }

    /// Takes the first response that waits in a lane's ring, and writes it.
    fn take<W: Write>(&mut self, lane: u16, output: &mut W) -> Result<(), Halt> {
        let Some(inlet) = self.inlets.get_mut(usize::from(lane)) else {
            return Err(Halt::Malformed);
        };
        let taken = inlet.take();
        print(output, &TakeLine { taken })
    }

    /// Removes a volume from a lane's book, and writes its size.
    fn turn<R: Wait, W: Write>(&mut self, rt: &R, lane: u16, output: &mut W) -> Result<(), Halt> {
        if lane >= self.proxy.lanes() {
            return Err(Halt::Malformed);
        }
        let outcome = match self.proxy.turn(rt, self.alloc, lane, self.moment) {
            Ok(volume) => Ok(Cut::of(&volume)),
            Err(fault) => Err(fault),
        };
        print(output, &TurnLine { lane, outcome })
    }

    /// Executes a command of the console, and writes its result.
    fn obey<R: Wait, W: Write>(
        &self,
        rt: &R,
        command: Command,
        output: &mut W,
    ) -> Result<(), Halt> {
        match obey(rt, self.config, &self.proxy, command, output) {
            Ok(()) => Ok(()),
            Err(_) => Err(Halt::Output),
        }
    }
}

fn print<W: Write, L: Display>(output: &mut W, line: &L) -> Result<(), Halt> {
    match writeln!(output, "{line}") {
        Ok(()) => Ok(()),
        Err(_) => Err(Halt::Output),
    }
}
