// The values that every layer shares: kinds and entries, states, phases, faults.
#![tactic(auto)]

ghost use Rattle.std.specs.Prelude.{◌≡◌, cond};
ghost use Rattle.values.specs.declared.Flow.TheVariants.{One, All};
ghost use Rattle.values.specs.Kinds.{Decodes};
ghost use Rattle.values.specs.Numbers.{kind_number, flow_number, row_state_number, host_state_number, phase_number, cause_number, layer_number};
ghost use Rattle.values.specs.Numbers.{in_range};

mod texts;

/// What an entry counts: a score in tenths, or a fee in pence.
#[derive(Clone, Copy, PartialEq, Eq, Debug, Drop)]
pub enum Kind {
    Score = 0,
    Fee = 1,
}

/// Which branches a step's entry or exit takes: one of its arrows, or all of them.
#[derive(Clone, Copy, PartialEq, Eq, Debug, Drop)]
pub enum Flow {
    One = 0,
    All = 1,
}

/// A score or a fee, by its kind and its number; without a number it is empty.
#[derive(Clone, Copy, PartialEq, Eq, Debug, Drop)]
pub struct Entry {
    pub kind: Kind,
    pub number: Option<i32>,
}

/// The state of a sheet's row; a number that has no row is absent.
// Absent is one of the states: a reply has a number for it, too.
#[derive(Clone, Copy, PartialEq, Eq, Debug, Drop)]
pub enum RowState {
    Absent = 0,
    Running = 1,
    Committed = 2,
    Dropped = 3,
    Due = 4,
    Undone = 5,
    PassedOver = 6,
}

/// The state of a row at a host.
// Unknown is one of the states that a call compares.
#[derive(Clone, Copy, PartialEq, Eq, Debug, Drop)]
pub enum HostState {
    Unknown = 0,
    Open = 1,
    Standing = 2,
    Void = 3,
    Reversed = 4,
}

/// What a sheet is doing: going forward, undoing a rollback, or parked in the middle of one.
#[derive(Clone, Copy, PartialEq, Eq, Debug, Drop)]
pub enum Phase {
    Forward = 0,
    Undoing = 1,
    Parked = 2,
}

/// Why a call was declined.
#[derive(Clone, Copy, PartialEq, Eq, Debug, Drop)]
pub enum Cause {
    WrongLength = 1,
    WrongForm = 2,
    WrongValue = 3,
    WrongStep = 4,
    ShortMemory = 5,
    FullSheet = 6,
    WrongPhase = 7,
    NoSuch = 8,
    WrongCount = 9,
    UnfitPredecessor = 10,
    UsedExit = 11,
    UnlawfulEntry = 12,
    ShutHost = 13,
    NoRoom = 14,
    OtherState = 15,
    OtherTicket = 16,
    DueAfter = 17,
    StillDue = 18,
    NothingLive = 19,
}

/// Which layer declined it.
#[derive(Clone, Copy, PartialEq, Eq, Debug, Drop)]
pub enum Layer {
    Reader = 1,
    Sheet = 2,
    Host = 3,
}

/// A declined call: why, by which layer, and at which place.
#[derive(Clone, Copy, PartialEq, Eq, Debug, Drop)]
pub struct Fault {
    pub cause: Cause,
    pub layer: Layer,
    pub place: usize,
}

/// How far an abort rolls back: all committed rows, or what a failing row calls for.
// A case for each way: complete, and partial with the failing row.
#[derive(Clone, Copy, PartialEq, Eq, Debug, Drop)]
pub enum Mode {
    Complete,
    Partial(u16),
}

/// The numbers that a ticket shows: the sheet's serial, and which of its rollbacks it is for.
#[derive(Clone, Copy, PartialEq, Eq, Debug, Drop)]
pub struct TicketNumber {
    pub serial: u16,
    pub rollback: u16,
}

/// An arrow of the compensating graph: row `from` is undone before row `to`.
#[derive(Clone, Copy, PartialEq, Eq, Debug, Drop)]
pub struct RowArrow {
    pub from: u16,
    pub to: u16,
}

/// What a call on a sheet answers.
// That the call was declined is one of the answers.
#[derive(Clone, Copy, PartialEq, Eq, Debug, Drop)]
pub enum Answer {
    /// A row was started, with this number.
    Row(u16),
    Done,
    Ticket(TicketNumber),
    /// What a listing wrote: so many arrows, and so many restart points.
    Listed { arrows: usize, restarts: usize },
    Declined(Fault),
}

/// The kind's number in stored forms.
impl From<Kind> for u8 {
    ghost from_gives = { λ kind number. number ≡ kind_number kind };

    fn from(kind: Kind) -> u8 {
        kind as u8
    }
}

/// The flow's number in stored forms.
impl From<Flow> for u8 {
    ghost from_gives = { λ flow number. number ≡ flow_number flow };

    fn from(flow: Flow) -> u8 {
        flow as u8
    }
}

/// The state's number in replies.
impl From<RowState> for u8 {
    ghost from_gives = { λ state number. number ≡ row_state_number state };

    fn from(state: RowState) -> u8 {
        state as u8
    }
}

/// The number of a state at a host.
impl From<HostState> for u8 {
    ghost from_gives = { λ at_host number. number ≡ host_state_number at_host };

    fn from(at_host: HostState) -> u8 {
        at_host as u8
    }
}

/// The phase's number in replies and faults.
impl From<Phase> for u8 {
    ghost from_gives = { λ phase number. number ≡ phase_number phase };

    fn from(phase: Phase) -> u8 {
        phase as u8
    }
}

/// The cause's number.
impl From<Cause> for u8 {
    ghost from_gives = { λ cause number. number ≡ cause_number cause };

    fn from(cause: Cause) -> u8 {
        cause as u8
    }
}

/// The layer's number.
impl From<Layer> for u8 {
    ghost from_gives = { λ layer number. number ≡ layer_number layer };

    fn from(layer: Layer) -> u8 {
        layer as u8
    }
}

/// A number that no kind has.
#[derive(Clone, Copy, PartialEq, Eq, Debug, Drop)]
pub struct UnknownKind(pub u8);

/// The kind with a number in stored forms.
impl TryFrom<u8> for Kind {
    type Error = UnknownKind;

    ghost try_from_gives = { Decodes };

    fn try_from(number: u8) -> Result<Kind, UnknownKind> {
        match number {
            0 => Ok(Kind::Score),
            1 => Ok(Kind::Fee),
            _ => Err(UnknownKind(number)),
        }
    }
}

/// All branches where the bit of a stored form is set.
impl From<bool> for Flow {
    ghost from_gives = { λ all flow. flow ≡ cond all All One };

    fn from(all: bool) -> Flow {
        if all { Flow::All } else { Flow::One }
    }
}

impl Layer {
    /// A fault of this layer.
    pub fn fault(self, cause: Cause, place: usize) -> Fault
        ensures { result ≡ record { cause = cause; layer = self; place = place } }
    {
        Fault {
            cause,
            layer: self,
            place,
        }
    }
}

impl Entry {
    /// Whether the number, if there is one, is one that the kind allows.
    pub fn is_in_range(self) -> bool
        ensures { result ≡ in_range self.kind self.number }
    {
        match self.number {
            None => true,
            Some(n) => match self.kind {
                Kind::Score => (-200..=999).contains(&n),
                Kind::Fee => (-100000..=100000).contains(&n),
            },
        }
    }
}
