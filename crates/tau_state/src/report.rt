// What a call says of the last block that it ran.
ghost use Rattle.std.specs.Prelude.{◌≡◌};
ghost use Rattle.tau_state.specs.Report.{number_of, leak_in, reason_number, outcome_of, reason_in, overs_in, report_of};

use crate::state::Mic;

// What a block did to the output filter: it did not run, no move, a rescue of the shadow, or a move with its leak.
#[derive(Clone, Copy)]
pub enum Outcome {
    NotRun,
    NoMove,
    Rescue,
    Move(f64),
}

// Why the output filter stood still in a block: the first of these that holds. Where none does it moved, with its leak.
#[derive(Clone, Copy)]
pub enum Reason {
    NoBlock,
    FlushBlock,
    OutputDiverged,
    FarNotActive,
    NotEstablished,
    Rescued,
    QuietStreakShort,
    NoOutputPower,
    NoAdvantage,
    Moved(f64),
}

// What a block tells of itself, besides what it leaves in the state: why its output filter stood still, and how many finite numbers became
// infinite where its inverse transforms were narrowed.
#[derive(Clone, Copy)]
pub struct Told {
    pub reason: Reason,
    pub overs: u32,
}

// The last block that a call ran.
#[derive(Clone, Copy)]
pub enum Last {
    NoneRan,
    Did(Told),
}

// The counters and the verdict stand in the state; the outcome is that of the last block's reason, and the overs are that block's too.
#[derive(Clone, Copy)]
pub struct Report {
    pub transfers: u64,
    pub divergence_resets: u64,
    pub double_talk: bool,
    pub outcome: Outcome,
    pub overs: u32,
    pub last: Last,
}

#[tactic(auto, unfolding(crate::specs::Report::outcome_of))]
pub fn outcome_of(reason: Reason) -> Outcome
    ensures { result ≡ outcome_of reason }
{
    match reason {
        Reason::NoBlock => Outcome::NotRun,
        Reason::FlushBlock
        | Reason::OutputDiverged
        | Reason::FarNotActive
        | Reason::NotEstablished
        | Reason::QuietStreakShort
        | Reason::NoOutputPower
        | Reason::NoAdvantage => Outcome::NoMove,
        Reason::Rescued => Outcome::Rescue,
        Reason::Moved(leak) => Outcome::Move(leak),
    }
}

#[tactic(auto, unfolding(crate::specs::Report::reason_in))]
pub fn reason_of(last: Last) -> Reason
    ensures { result ≡ reason_in last }
{
    match last {
        Last::NoneRan => Reason::NoBlock,
        Last::Did(told) => told.reason,
    }
}

#[tactic(auto, unfolding(crate::specs::Report::overs_in))]
pub fn overs_of(last: Last) -> u32
    ensures { result ≡ overs_in last }
{
    match last {
        Last::NoneRan => 0,
        Last::Did(told) => told.overs,
    }
}

#[tactic(auto, unfolding(crate::specs::Report::report_of))]
pub fn report_of(mic: &Mic, last: Last) -> Report
    ensures { result ≡ report_of mic.now last }
{
    Report {
        transfers: mic.transfers,
        divergence_resets: mic.divergence_resets,
        double_talk: mic.detector.double_talk,
        outcome: outcome_of(reason_of(last)),
        overs: overs_of(last),
        last,
    }
}

// The outcome as a number, for hosts that have no enum.
#[tactic(auto, unfolding(crate::specs::Report::number_of))]
impl From<Outcome> for u32 {
    ghost from_gives = { λ outcome number. number ≡ number_of outcome };

    fn from(outcome: Outcome) -> u32 {
        match outcome {
            Outcome::NotRun => 0,
            Outcome::NoMove => 1,
            Outcome::Rescue => 2,
            Outcome::Move(_leak) => 3,
        }
    }
}

pub fn number(o: Outcome) -> u32
    ensures { result ≡ number_of o }
{
    u32::from(o)
}

// The leak of a move, and 0.0 where there is none.
#[tactic(auto, unfolding(crate::specs::Report::leak_in))]
pub fn leak_of(outcome: Outcome) -> f64
    ensures { result ≡ leak_in outcome }
{
    match outcome {
        Outcome::NotRun | Outcome::NoMove | Outcome::Rescue => 0.0,
        Outcome::Move(leak) => leak,
    }
}

// The reason as a number, likewise: its place in the order.
#[tactic(auto, unfolding(crate::specs::Report::reason_number))]
impl From<Reason> for u32 {
    ghost from_gives = { λ reason number. number ≡ reason_number reason };

    fn from(reason: Reason) -> u32 {
        match reason {
            Reason::NoBlock => 0,
            Reason::FlushBlock => 1,
            Reason::OutputDiverged => 2,
            Reason::FarNotActive => 3,
            Reason::NotEstablished => 4,
            Reason::Rescued => 5,
            Reason::QuietStreakShort => 6,
            Reason::NoOutputPower => 7,
            Reason::NoAdvantage => 8,
            Reason::Moved(_leak) => 9,
        }
    }
}

pub fn reason_number(reason: Reason) -> u32
    ensures { result ≡ reason_number reason }
{
    u32::from(reason)
}
