//! Requests, read while their bytes come in pieces.

ghost use Rattle.std.specs.Prelude.{◌≡◌, ◌≤◌, drop, length, IfOk, IfErr};
ghost use Rattle.fetch_asked.specs.Intakes.{error_of, is_memory, GoesTo, StopsAt, refusal_of, resumed, told_of};
ghost use Rattle.fetch_asked.specs.Texts.{request_bound};
ghost use Rattle.std.specs.Prelude.{List, ℕ};

use crate::asked::Asked;
use crate::error::ServeError;
use crate::reading::{Read, Reading};
use fetch_lines::{LineError, line_in};
use fetch_store::{Kind, NoMemory};
use std::alloc::Global;
use std::marker::Model;

/// How many bytes a request may have.
const BOUND: u32 = 268_435_456;

/// Why what was fed isn't read.
#[derive(Clone, Copy, Debug, PartialEq, Eq)]
pub enum Refusal {
    /// The line that begins at this place of its request may not stand there.
    Malformed(usize),
    /// The digits of a line announce that its request is too long.
    TooLong,
    /// Memory ran out.
    NoMemory,
}

impl Refusal {
    /// Whether memory ran out.
    pub fn is_memory(self) -> bool
        ensures { result ≡ is_memory self }
    {
        matches!(self, Refusal::NoMemory)
    }

    /// The refusal, as a caller learns it.
    pub fn to_error(self) -> ServeError
        ensures { result ≡ error_of self }
    {
        match self {
            Refusal::Malformed(place) => ServeError::Malformed { place },
            Refusal::TooLong => ServeError::RequestTooLong { bound: BOUND },
            Refusal::NoMemory => ServeError::NoMemory,
        }
    }
}

impl From<NoMemory> for Refusal {
    ghost use Rattle.std.specs.Prelude.{◌≡◌};
    ghost use Rattle.fetch_asked.specs.declared.intake.Refusal.TheVariants as refusals;

    ghost from_gives = { λ _ e. e ≡ refusals.NoMemory };

    fn from(_e: NoMemory) -> Refusal {
        Refusal::NoMemory
    }
}

/// Why a line can't be read, whatever comes next; nothing where more bytes may make one.
fn refusal_of(trouble: LineError) -> Option<Refusal>
    ensures { result ≡ refusal_of trouble }
{
    match trouble {
        LineError::Short { .. } => None,
        LineError::Broken { place } => Some(Refusal::Malformed(place)),
        LineError::TooLong => Some(Refusal::TooLong),
    }
}

/// How far a request was read.
#[derive(Drop)]
pub(crate) enum Progress {
    /// As far as its lines are there.
    On(Reading),
    /// To its end.
    Whole(Asked),
}

/// The bytes from this place on.
fn rest_at(bytes: &[u8], place: usize) -> &[u8]
    requires { place ≤ length bytes.now }
    ensures { result.now ≡ drop place bytes.now }
{
    &bytes[place..]
}

/// Reads on from this place of a request, line by line, and answers how far.
fn read_on(
    alloc: Global,
    hash: Kind,
    bytes: &[u8],
    place: usize,
    reading: Reading,
) -> Result<(Progress, usize), Refusal>
    requires within { place ≤ length bytes.now }
    requires bounded { place ≤ request_bound }
    ensures goes { IfOk result (λ found. GoesTo hash bytes.now place reading found) }
    ensures stops { IfErr result (λ refusal. (more : List ℕ) → StopsAt (told_of hash bytes.now place reading more) refusal) }
{
    let mut reading = reading;
    let mut place = place;
    'lines: loop {
        let (line, count) = match line_in(BOUND as usize, place, rest_at(bytes, place)) {
            Ok(found) => found,
            Err(trouble) => match refusal_of(trouble) {
                Some(refusal) => return Err(refusal),
                None => return Ok((Progress::On(reading), place)),
            },
        };
        match reading.line(alloc, hash, line)? {
            Read::On(next) => reading = next,
            Read::Whole(asked) => return Ok((Progress::Whole(asked), place + count)),
            Read::Broken => return Err(Refusal::Malformed(place)),
        }
        place += count;
    }
}

/// Where a request is read on: behind what was read of it, or at its start where nothing is known.
fn resumed(begun: bool, place: usize, reading: Option<Reading>) -> (usize, Reading)
    ensures { result ≡ resumed begun place reading }
{
    match reading {
        Some(reading) => (place, reading),
        None => (0, Reading::start(begun)),
    }
}

/// What was fed and isn't answered yet. Contracts see the hash, whether the first line of the conversation was answered,
/// and the bytes.
#[derive(Drop)]
pub struct Intake {
    hash: Kind,
    begun: bool,
    bytes: Vec<u8>,
    /// Where the request that is being read begins.
    start: usize,
    /// How many bytes its lines that were read have.
    place: usize,
    /// What they tell. Nothing is known after a refusal: the request is read anew then.
    reading: Option<Reading>,
}

impl Model for Intake {
    ghost use Rattle.std.specs.Prelude.{◌≤◌, drop, vec_len};
    ghost use Rattle.fetch_asked.specs.Intakes.{Incoming, IsRead};

    ghost Value = { Incoming };

    ghost view = { λ i. record { hash = i.hash; begun = i.begun; pending = drop i.start i.bytes.items } };

    ghost invariant = { λ i. (i.start ≤ vec_len i.bytes) × IsRead i.hash i.begun (drop i.start i.bytes.items) i.place i.reading };
}

impl Intake {
    ghost use Rattle.std.specs.Prelude.{◌≡◌, ◌≤◌, [], false, length, IfOk, IfErr, OnOk, OnErr};
    ghost use Rattle.fetch_asked.specs.Intakes.{Finds, StopsAt, cut_to, fed, passed};
    ghost use Rattle.fetch_asked.specs.Texts.{request_at};

    /// Nothing was fed yet.
    pub fn new(alloc: Global, hash: Kind) -> Intake
        ensures { result ≡ record { hash = hash; begun = false; pending = [] } }
    {
        Intake {
            hash,
            begun: false,
            bytes: Vec::new(alloc),
            start: 0,
            place: 0,
            reading: Some(Reading::start(false)),
        }
    }

    /// How many bytes weren't answered yet.
    pub fn len(&self) -> usize
        ensures { result ≡ length self.now.pending }
    {
        self.bytes.len() - self.start
    }

    /// Takes the next bytes. An error leaves all as it was.
    pub fn feed(&mut self, piece: &[u8]) -> Result<(), NoMemory>
        ensures ok { OnOk result (self.new ≡ fed self.old piece.now) }
        ensures err { OnErr result (self.new ≡ self.old) }
    {
        let _ = self.bytes.drain(..self.start);
        self.start = 0;
        self.bytes.extend_from_slice(piece)?;
        Ok(())
    }

    /// The request that is whole, and how many bytes it has, where one is. It is refused where a line may not stand, where
    /// digits announce too long a one, and where memory ran out; and so is each later read, until memory suffices.
    pub fn read(&mut self, alloc: Global) -> Result<Option<(Asked, usize)>, Refusal>
        ensures same { self.new ≡ self.old }
        ensures finds { IfOk result (λ found. Finds self.old found) }
        ensures stops { IfErr result (λ refusal. StopsAt (request_at self.old.hash self.old.begun self.old.pending) refusal) }
    {
        let (from, reading) = resumed(self.begun, self.place, self.reading.take());
        let bytes = rest_at(&self.bytes, self.start);
        let (progress, place) = match read_on(alloc, self.hash, bytes, from, reading) {
            Ok(found) => found,
            Err(refusal) => return Err(refusal),
        };
        match progress {
            Progress::On(reading) => {
                self.place = place;
                self.reading = Some(reading);
                Ok(None)
            }
            Progress::Whole(asked) => Ok(Some((asked, place))),
        }
    }

    /// Goes on behind a request of this length.
    pub fn pass(&mut self, count: usize)
        requires { count ≤ length self.old.pending }
        ensures { self.new ≡ passed self.old count }
    {
        self.start += count;
        self.place = 0;
        self.begun = true;
        self.reading = Some(Reading::start(true));
    }

    /// Forgets all but the first bytes, which are read anew.
    pub fn cut(&mut self, len: usize)
        requires { len ≤ length self.old.pending }
        ensures { self.new ≡ cut_to self.old len }
    {
        self.bytes.truncate(self.start + len);
        self.reading = None;
    }

    /// An equal intake, which reads the request that isn't whole yet again.
    pub fn try_clone(&self) -> Result<Intake, NoMemory>
        ensures { IfOk result (λ copy. copy ≡ self.now) }
    {
        let bytes = Vec::from_slice(*self.bytes.allocator(), &self.bytes[self.start..])?;
        Ok(Intake {
            hash: self.hash,
            begun: self.begun,
            bytes,
            start: 0,
            place: 0,
            reading: Some(Reading::start(self.begun)),
        })
    }
}
