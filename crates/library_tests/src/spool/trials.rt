//! Trials on a folder of this system, which the variable SPOOL_FOLDER names. Without it they do nothing. The numbers that they
//! need are in variables too, and what they did they print.

ghost use Rattle.std.specs.Prelude.{IfOk, OnOk};
ghost use Rattle.spool_files.specs.Settled.{IsSettledFile};

use rad_tables::Key;
use spool_files::*;
use std::alloc::{AllocError, AllocGlobal, Global};
use std::fs::Files;
use std::rt::HostRuntime;
use std::{env, io};

/// A segment on the disks of this system.
type HostSegment = Segment<LoggedFile<SegmentFile<<HostRuntime as Files>::File>>>;

/// Returns the number that a variable has, or 0.
fn number_of(rt: &HostRuntime, name: &str) -> u64 {
    match env::var(rt, name) {
        Ok(text) => text.parse::<u64>().unwrap_or(0),
        Err(_) => 0,
    }
}

/// What the texts of entries begin with.
static TEXT: [u8; 4096] = [7; 4096];

/// The key of the request that came in at this place among all.
fn key_of(arrival: u64) -> Key {
    let mut authenticator = [9; 16];
    authenticator[..8].copy_from_slice(&arrival.to_be_bytes());
    Key {
        authenticator,
        client: [192, 0, 2, (arrival % 7) as u8],
        port: (arrival % 60_000) as u16,
        identifier: (arrival % 256) as u8,
    }
}

fn came_of(arrival: u64, run: u64) -> Head {
    Head::Came(Came {
        key: key_of(arrival),
        ours: LocalAddress {
            address: [192, 0, 2, 1],
            port: 1813,
        },
        arrival,
        run,
        lane: (arrival % 3) as u16,
        number: arrival,
        moment: arrival,
    })
}

fn answered_of(arrival: u64, run: u64, moment: u64) -> Head {
    Head::Answered(Answered {
        key: key_of(arrival),
        run,
        lane: (arrival % 3) as u16,
        serial: arrival,
        moment,
    })
}

fn given_up_of(arrival: u64, moment: u64) -> Head {
    Head::GivenUp(GivenUp {
        key: key_of(arrival),
        moment,
    })
}

/// Puts an entry behind the octets; a text that is too long is cut.
fn put(octets: &mut Vec<u8>, head: &Head, text: &[u8]) -> Result<(), AllocError> {
    let most = head.greatest_text().min(text.len());
    put_entry(octets, head, &text[..most])
}

/// A run that writes segments to a folder.
#[derive(Drop)]
struct Writer<'a> {
    rt: &'a HostRuntime,
    alloc: Global,
    folder: &'a str,
    run: u64,
    /// How many octets a segment has at most, about.
    most: u64,
    /// For how many arrivals an answer is remembered; a moment is an arrival here.
    span: u64,
    /// How long the text of a request is at least.
    text: u64,
    /// The number and the octets of each segment, and the last moment in it, the oldest first.
    segments: Vec<(u64, u64, u64)>,
}

impl<'a> Writer<'a> {
    /// Makes the next segment, whose first batch is its beginning.
    fn next_segment(&mut self, moment: u64) -> io::Result<HostSegment>
        ensures { IfOk result (λ segment. IsSettledFile segment) }
    {
        let number = match self.segments.last() {
            Some(last) => last.0.saturating_add(1),
            None => 1,
        };
        let mut device = make_segment(self.rt, self.alloc, self.folder, number)?;
        if let Err(fault) = begin(&mut device) {
            return Err(AppendError::Failed(fault).as_io());
        }
        let body = self.beginning(number)?;
        self.segments.push((number, 0, moment))?;
        let mut segment = Segment::new(device);
        self.append_body(&mut segment, &body)?;
        Ok(segment)
    }

    /// Puts the beginning of a segment.
    fn beginning(&self, number: u64) -> io::Result<Vec<u8>> {
        let mut body = Vec::new(self.alloc);
        let head = Head::Begun(Begun {
            version: VERSION,
            run: self.run,
            number,
        });
        put(&mut body, &head, &[])?;
        Ok(body)
    }

    /// Appends a batch.
    fn append_body(&self, segment: &mut HostSegment, body: &[u8]) -> io::Result<()>
        requires { IsSettledFile segment.old }
        ensures { OnOk result (IsSettledFile segment.new) }
    {
        match segment.append(self.alloc, body) {
            Ok(()) => Ok(()),
            Err(error) => Err(error.as_io()),
        }
    }

    /// Notes how long the newest segment is now.
    fn note_end(&mut self, end: usize, moment: u64) {
        if let Some(last) = self.segments.as_mut_slice().last_mut() {
            last.1 = end as u64;
            last.2 = moment;
        }
    }

    /// Puts the request with this arrival, and what closes earlier ones.
    fn put_arrival(&self, body: &mut Vec<u8>, arrival: u64) -> Result<(), AllocError> {
        let length = self.text.saturating_add(arrival % 8).min(4096) as usize;
        put(body, &came_of(arrival, self.run), &TEXT[..length])?;
        let earlier = arrival.saturating_sub(5);
        if earlier % 10 != 3 {
            put(body, &answered_of(earlier, self.run, arrival), &TEXT[..20])?;
        } else if earlier % 40 == 3 {
            put(body, &given_up_of(earlier, arrival), b"gone")?;
        }
        let late = arrival.saturating_sub(400);
        if late % 10 == 3 && late % 100 != 3 {
            put(body, &answered_of(late, self.run, arrival), &TEXT[..20])?;
        }
        Ok(())
    }

    /// Makes a body of the requests with these arrivals, in place of the one before.
    fn put_batch(&self, body: &mut Vec<u8>, first: u64, count: u64) -> Result<(), AllocError> {
        body.clear();
        for arrival in first..first.saturating_add(count) {
            self.put_arrival(body, arrival)?;
        }
        Ok(())
    }

    /// How many octets the entries of the open requests have.
    fn open_octets(&self, now: u64) -> io::Result<u64> {
        let read = read_spool(self.rt, self.alloc, self.folder, now, self.span)?;
        let mut open = 0_u64;
        for request in &read.counted.requests {
            open = open
                .saturating_add(request.octets.len() as u64)
                .saturating_add(76);
        }
        Ok(open)
    }

    /// Whether there are more octets than may be, where the open requests have so many.
    fn is_over(&self, now: u64, open: u64) -> bool {
        let (mut total, mut within) = (0_u64, 0_u64);
        for segment in &self.segments {
            total = total.saturating_add(segment.1);
            if now.saturating_sub(segment.2) <= self.span {
                within = within.saturating_add(segment.1);
            }
        }
        is_to_write_again(self.most, total, open, within)
    }

    /// Whether the oldest segment may be removed. Where that is due, it first writes once more what is open in it.
    fn is_removable(
        &self,
        segment: &mut HostSegment,
        counted: &Counted,
        now: u64,
    ) -> io::Result<bool>
        requires { IsSettledFile segment.old }
        ensures { OnOk result (IsSettledFile segment.new) }
    {
        if counted.is_empty() {
            return Ok(true);
        }
        if !counted.answers.is_empty() || !self.is_over(now, self.open_octets(now)?) {
            return Ok(false);
        }
        let mut body = Vec::new(self.alloc);
        for request in &counted.requests {
            put(&mut body, &Head::Came(request.came), &request.octets)?;
        }
        self.append_body(segment, &body)?;
        Ok(true)
    }

    /// Counts what counts of the oldest segment. Returns its number, unless it is the only one.
    fn count_oldest(&self, counted: &mut Counted, now: u64) -> io::Result<Option<u64>> {
        let [oldest, newer @ ..] = self.segments.as_slice() else {
            return Ok(None);
        };
        if newer.is_empty() {
            return Ok(None);
        }
        for each in newer.iter().rev() {
            count_segment(self.rt, self.folder, each.0, now, self.span, counted)?;
            counted.let_go();
        }
        count_segment(self.rt, self.folder, oldest.0, now, self.span, counted)?;
        Ok(Some(oldest.0))
    }

    /// Removes the oldest segment, of which so many requests were written once more.
    fn remove_oldest(&mut self, number: u64, copies: usize) -> io::Result<()> {
        remove_segment(self.rt, self.alloc, self.folder, number)?;
        if !self.segments.is_empty() {
            self.segments.remove(0);
        }
        println!(self.rt; "removed {number} {copies}")
    }

    /// Removes the oldest segment if nothing of it counts, or what is open in it was written once more. If SPOOL_KEEPS is not 0, it
    /// does nothing.
    fn prune(&mut self, segment: &mut HostSegment, now: u64) -> io::Result<()>
        requires { IsSettledFile segment.old }
        ensures { OnOk result (IsSettledFile segment.new) }
    {
        if number_of(self.rt, "SPOOL_KEEPS") > 0 {
            return Ok(());
        }
        let mut counted = Counted::new(self.alloc);
        if let Some(number) = self.count_oldest(&mut counted, now)? {
            if self.is_removable(segment, &counted, now)? {
                self.remove_oldest(number, counted.requests.len())?;
            }
        }
        self.note_end(segment.end, now);
        Ok(())
    }

    /// Goes on in a new segment where this one is long, and removes old ones.
    fn turn(&mut self, segment: &mut HostSegment, now: u64) -> io::Result<()>
        requires { IsSettledFile segment.old }
        ensures { OnOk result (IsSettledFile segment.new) }
    {
        if segment.end as u64 <= self.most {
            return Ok(());
        }
        *segment = self.next_segment(now)?;
        self.prune(segment, now)?;
        self.prune(segment, now)
    }

    /// Appends a batch, and prints its arrivals before, and `ok` when that was done.
    fn append(
        &self,
        segment: &mut HostSegment,
        body: &mut Vec<u8>,
        first: u64,
        count: u64,
    ) -> io::Result<()>
        requires { IsSettledFile segment.old }
        ensures { OnOk result (IsSettledFile segment.new) }
    {
        self.put_batch(body, first, count)?;
        println!(self.rt; "try {first} {count}")?;
        self.append_body(segment, body)?;
        println!(self.rt; "ok")
    }

    /// Appends so many batches of so many requests each.
    fn append_all(
        &mut self,
        segment: &mut HostSegment,
        first: u64,
        count: u64,
        batches: u64,
    ) -> io::Result<()>
        requires { IsSettledFile segment.old }
    {
        let mut body = Vec::new(self.alloc);
        for step in 0..batches {
            let arrival = first.saturating_add(step.saturating_mul(count));
            let next = arrival.saturating_add(count);
            self.append(segment, &mut body, arrival, count)?;
            self.note_end(segment.end, next);
            self.turn(segment, next)?;
        }
        Ok(())
    }

    /// Writes to the folder as the variables say.
    fn write(&mut self, first: u64) -> io::Result<()> {
        let mut segment = self.next_segment(first)?;
        let count = number_of(self.rt, "SPOOL_COUNT");
        let batches = number_of(self.rt, "SPOOL_BATCHES");
        self.append_all(&mut segment, first, count, batches)
    }
}

/// The segments that a folder has when a run begins, as if they were written long before.
fn found_segments(rt: &HostRuntime, folder: &str) -> io::Result<Vec<(u64, u64, u64)>> {
    let mut segments = Vec::new(rt.alloc());
    for number in segment_numbers(rt, rt.alloc(), folder)? {
        let octets = find_segment(rt, rt.alloc(), folder, number)?.1.len();
        segments.push((number, octets as u64, 0))?;
    }
    Ok(segments)
}

/// Has the system keep what a folder has, and writes batches to it.
fn write_to(rt: &HostRuntime, folder: &str) -> io::Result<()> {
    let first = number_of(rt, "SPOOL_FIRST");
    let span = number_of(rt, "SPOOL_SPAN");
    make_folder(rt, folder)?;
    read_spool(rt, rt.alloc(), folder, first, span)?;
    let mut writer = Writer {
        rt,
        alloc: rt.alloc(),
        folder,
        run: number_of(rt, "SPOOL_RUN"),
        most: number_of(rt, "SPOOL_MOST"),
        span,
        text: number_of(rt, "SPOOL_TEXT"),
        segments: found_segments(rt, folder)?,
    };
    writer.write(first)
}

/// Writes batches to the folder, up to SPOOL_BATCHES of them, and prints the arrivals of each before it is appended, and
/// `ok` when it was. Segments have about SPOOL_MOST octets, each batch SPOOL_COUNT requests of SPOOL_TEXT octets at least.
#[test]
fn writes_to_a_folder(rt: HostRuntime) -> io::Result<()> {
    match env::var(&rt, "SPOOL_FOLDER") {
        Ok(folder) => write_to(&rt, &folder),
        Err(_) => Ok(()),
    }
}

fn print_requests(rt: &HostRuntime, requests: &[OpenRequest]) -> io::Result<()> {
    for request in requests {
        let (came, check) = (&request.came, crc32_of(&request.octets));
        println!(rt; "open {} {} {check}", came.arrival, came.run)?;
    }
    Ok(())
}

fn print_answers(rt: &HostRuntime, answers: &[RememberedAnswer]) -> io::Result<()> {
    for answer in answers {
        let (answered, check) = (&answer.answered, crc32_of(&answer.octets));
        println!(rt; "answer {} {} {check}", answered.serial, answered.run)?;
    }
    Ok(())
}

fn print_faults(rt: &HostRuntime, faults: &[Fault]) -> io::Result<()> {
    for fault in faults {
        println!(rt;
            "fault {} {} {}",
            fault.segment,
            fault.offset,
            fault.kind.name()
        )?;
    }
    Ok(())
}

/// Prints what was read; all of it, or how much it is.
fn print_spool(rt: &HostRuntime, read: &SpoolRead, is_short: bool) -> io::Result<()> {
    let (requests, answers) = (&read.counted.requests, &read.counted.answers);
    println!(rt; "counts {} {}", requests.len(), answers.len())?;
    if !is_short {
        print_requests(rt, requests)?;
        print_answers(rt, answers)?;
    }
    print_faults(rt, &read.faults)
}

/// Reads the folder at the moment SPOOL_NOW, and prints what is open and remembered, and what is wrong.
#[test]
fn reads_a_folder(rt: HostRuntime) -> io::Result<()> {
    let Ok(folder) = env::var(&rt, "SPOOL_FOLDER") else {
        return Ok(());
    };
    let (now, span) = (number_of(&rt, "SPOOL_NOW"), number_of(&rt, "SPOOL_SPAN"));
    let read = read_spool(&rt, rt.alloc(), &folder, now, span)?;
    print_spool(&rt, &read, number_of(&rt, "SPOOL_SHORT") > 0)
}
