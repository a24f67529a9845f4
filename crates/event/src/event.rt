//! Events: what a thread did, and how strongly that orders.

ghost use Rattle.std.specs.Prelude.{◌≡◌};
ghost use Rattle.event.specs.Labels.{mode_from, allows, allowed_mode, arguments_from, accesses, mode_of, is_read, is_write, agree, one_location, location, value_read, value_written};

use crate::denial::Denial;

/// How strongly an access or a fence orders.
#[derive(Clone, Copy, PartialEq, Eq)]
pub enum Mode {
    NonAtomic,
    Relaxed,
    Acquire,
    Release,
    AcquireRelease,
    SeqCst,
}

impl TryFrom<u32> for Mode {
    type Error = Denial;

    ghost try_from_gives = { λ number r. r ≡ mode_from number };

    fn try_from(number: u32) -> Result<Mode, Denial> {
        match number {
            0 => Ok(Mode::NonAtomic),
            1 => Ok(Mode::Relaxed),
            2 => Ok(Mode::Acquire),
            3 => Ok(Mode::Release),
            4 => Ok(Mode::AcquireRelease),
            5 => Ok(Mode::SeqCst),
            _ => Err(Denial::Mode),
        }
    }
}

/// The kinds of event.
#[derive(Clone, Copy)]
pub enum Kind {
    Read,
    Write,
    Update,
    Fence,
}

/// What an event does. An update reads and writes in one step.
#[derive(Clone, Copy)]
pub enum Label {
    Read {
        location: u8,
        value: u32,
        mode: Mode,
    },
    Write {
        location: u8,
        value: u32,
        mode: Mode,
    },
    Update {
        location: u8,
        read: u32,
        written: u32,
        mode: Mode,
    },
    Fence {
        mode: Mode,
    },
}

/// What one thread did in one step.
#[derive(Clone, Copy)]
pub struct Event {
    pub thread: u8,
    pub label: Label,
}

/// What an event is recorded from. What its kind does not carry is ignored.
#[derive(Clone, Copy)]
pub struct Arguments {
    pub thread: u32,
    pub location: u32,
    pub read: u32,
    pub written: u32,
    pub mode: u32,
}

impl From<[u32; 5]> for Arguments {
    ghost from_gives = { λ numbers r. r ≡ arguments_from numbers };

    fn from([thread, location, read, written, mode]: [u32; 5]) -> Arguments {
        Arguments {
            thread,
            location,
            read,
            written,
            mode,
        }
    }
}

impl Kind {
    /// Whether events of this kind access a location.
    pub fn accesses(self) -> bool
        ensures all_but_fences { result ≡ accesses self }
    {
        match self {
            Kind::Read | Kind::Write | Kind::Update => true,
            Kind::Fence => false,
        }
    }

    /// Whether an event of this kind may have the mode of that number.
    pub fn allows(self, mode: u32) -> bool
        ensures as_the_rules_allow { result ≡ allows self mode }
    {
        self.mode(mode).is_ok()
    }

    /// The mode of that number, if events of this kind may have it.
    pub fn mode(self, number: u32) -> Result<Mode, Denial>
        ensures that_mode_if_the_rules_allow_it { result ≡ allowed_mode self number }
    {
        let mode = Mode::try_from(number)?;
        match (self, mode) {
            (Kind::Read, Mode::Release | Mode::AcquireRelease)
            | (Kind::Write, Mode::Acquire | Mode::AcquireRelease)
            | (Kind::Update, Mode::NonAtomic)
            | (Kind::Fence, Mode::NonAtomic | Mode::Relaxed) => Err(Denial::Mode),
            _ => Ok(mode),
        }
    }
}

impl Label {
    pub fn reads(self) -> bool
        ensures reads_and_updates { result ≡ is_read self }
    {
        self.value_read().is_some()
    }

    pub fn writes(self) -> bool
        ensures writes_and_updates { result ≡ is_write self }
    {
        self.value_written().is_some()
    }

    pub fn mode(self) -> Mode
        ensures of_every_label { result ≡ mode_of self }
    {
        match self {
            Label::Read { mode, .. } | Label::Write { mode, .. } | Label::Update { mode, .. } =>
                mode,
            Label::Fence { mode } => mode,
        }
    }

    // This, the one above and the two below are four matches, since each gives other fields of other cases.
    /// The location of an access.
    pub fn location(self) -> Option<u8>
        ensures of_every_access { result ≡ location self }
    {
        match self {
            Label::Read { location, .. }
            | Label::Write { location, .. }
            | Label::Update { location, .. } => Some(location),
            Label::Fence { .. } => None,
        }
    }

    /// The value that a read or an update reads.
    pub fn value_read(self) -> Option<u32>
        ensures of_every_read { result ≡ value_read self }
    {
        match self {
            Label::Read { value, .. } => Some(value),
            Label::Update { read, .. } => Some(read),
            Label::Write { .. } | Label::Fence { .. } => None,
        }
    }

    /// The value that a write or an update writes.
    pub fn value_written(self) -> Option<u32>
        ensures of_every_write { result ≡ value_written self }
    {
        match self {
            Label::Write { value, .. } => Some(value),
            Label::Update { written, .. } => Some(written),
            Label::Read { .. } | Label::Fence { .. } => None,
        }
    }

    /// Whether both access one location.
    pub fn shares_location(self, other: Label) -> bool
        ensures both_access_one_location { result ≡ one_location self other }
    {
        self.location()
            .is_some_and(|here| other.location() == Some(here))
    }

    /// Whether the other reads the value that this one writes.
    pub fn writes_value_of(self, read: Label) -> bool
        ensures written_is_read { result ≡ agree (value_written self) (value_read read) }
    {
        self.value_written()
            .is_some_and(|written| read.value_read() == Some(written))
    }
}
