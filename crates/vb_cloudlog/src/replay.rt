// The reader of a log, which is fed pieces of it.
ghost use Rattle.std.specs.Prelude.{◌≡◌, ◌<◌, ◌≤◌, [], length, take, Some, None, IfSome, IsNone, IsSome};
ghost use Rattle.vb_cloud.specs.Valid.{IsCloudState};
ghost use Rattle.vb_cloudlog.specs.Messages.{Partial, opening_of};
ghost use Rattle.vb_cloudlog.specs.Replays.{ReplayState, new_replay, fed};
ghost use Rattle.vb_cloudlog.specs.Feeds.{AnswersFeed};

use crate::Stop;
use crate::play::{Played, play};
use std::alloc::Global;
use std::marker::Model;
use thiserror::Error;
use vb_cloud::Cloud;
use vb_tree::Bytes;

/// How many bytes the longest frame has.
const LONGEST: usize = 4133;

/// Why a piece was not taken as a whole.
#[derive(Clone, Copy, Debug, PartialEq, Eq, Error)]
pub enum FeedError {
    /// The log is read no further.
    #[error("{stop}")]
    Stopped { stop: Stop },
    #[error("no memory was found")]
    Memory,
}

/// A reader of a log. It holds the cloud after the frames of all bytes that it was fed, and those behind them, which are
/// less than a frame.
#[derive(Drop)]
pub struct Replay {
    alloc: Global,
    cloud: Cloud,
    place: u64,
    rest: Bytes,
    stop: Option<Stop>,
}

impl Model for Replay {
    ghost use Rattle.vb_cloudlog.specs.Replays.{ReplayState, IsReplay};

    ghost Value = { ReplayState };

    ghost view = { λ a. record { cloud = a.cloud; place = a.place; rest = a.rest; stop = a.stop } };

    ghost invariant = { λ a. IsReplay a.cloud a.rest };
}

impl Replay {
    /// A reader that was fed nothing: a new cloud. It takes no memory.
    pub fn new(alloc: Global) -> Replay
        ensures new { result ≡ new_replay }
        ensures sound { IsCloudState result.cloud }
    {
        vb_cloud::clouds_go_on();
        Replay {
            alloc,
            cloud: Cloud::new(alloc),
            place: 0,
            rest: Bytes::new(alloc),
            stop: None,
        }
    }

    /// The cloud after the frames that were taken.
    pub fn cloud(&self) -> &Cloud
        ensures { result.now ≡ self.now.cloud }
    {
        &self.cloud
    }

    /// The cloud after the frames that were taken.
    pub fn into_cloud(self) -> Cloud
        ensures cloud { result ≡ self.cloud }
        ensures sound { IsCloudState result }
    {
        self.cloud
    }

    /// How many bytes the frames have that were taken, at most 2^64 - 1.
    pub fn place(&self) -> u64
        ensures { result ≡ self.now.place }
    {
        self.place
    }

    /// The bytes behind these frames, less than a frame.
    pub fn rest(&self) -> &[u8]
        ensures { result.now ≡ self.now.rest }
    {
        self.rest.slice()
    }

    /// Takes bytes from the front of a piece, and says how many. Ok takes the whole piece. A reader that stopped takes
    /// nothing more and answers the same. For want of memory the bytes taken stand, and the rest may be fed again.
    pub fn feed(&mut self, piece: &[u8]) -> (usize, Result<(), FeedError>)
        ensures few { result.0 ≤ length piece.now }
        ensures fed { self.new ≡ fed self.old (take result.0 piece.now) }
        ensures answer { AnswersFeed self.new.stop (length piece.now) result.0 result.1 }
        ensures stopped { IsSome self.old.stop → result.0 ≡ 0 }
        ensures sound { IsCloudState self.new.cloud }
        ensures partial { opening_of self.new.rest ≡ Partial }
    {
        if let Some(stop) = self.stop {
            return (0, Err(FeedError::Stopped { stop }));
        }
        let mut at = 0;
        while at < piece.len() && self.stop.is_none() {
            let (_, rest) = piece.split_at(at);
            let Some(n) = self.step(rest) else {
                return (at, Err(FeedError::Memory));
            };
            at += n;
        }
        match self.stop {
            Some(stop) => (at, Err(FeedError::Stopped { stop })),
            None => (at, Ok(())),
        }
    }

    // Takes one frame, or what there is of one. None for want of memory.
    fn step(&mut self, piece: &[u8]) -> Option<usize>
        requires goes_on { self.old.stop ≡ None }
        requires some { 0 < length piece.now }
        ensures fed { IfSome result (λ n. self.new ≡ fed self.old (take n piece.now)) }
        ensures within { IfSome result (λ n. (0 < n) × (n ≤ length piece.now)) }
        ensures none { IsNone result → self.new ≡ self.old }
    {
        if self.rest.is_empty() {
            self.begin(piece)
        } else {
            self.go_on(piece)
        }
    }

    // The same where no byte is kept: frames are read in the piece itself.
    #[tactic(auto, using(crate::proofs::Steps::steps))]
    fn begin(&mut self, piece: &[u8]) -> Option<usize>
        requires goes_on { self.old.stop ≡ None }
        requires empty { self.old.rest ≡ [] }
        requires some { 0 < length piece.now }
        ensures fed { IfSome result (λ n. self.new ≡ fed self.old (take n piece.now)) }
        ensures within { IfSome result (λ n. (0 < n) × (n ≤ length piece.now)) }
        ensures none { IsNone result → self.new ≡ self.old }
    {
        match play(self.alloc, &mut self.cloud, self.place, piece) {
            Played::Taken { len } => {
                self.place = self.place.saturating_add(len as u64);
                Some(len)
            }
            Played::Kept => {
                match self.rest.extend(piece) {
                    Ok(()) => {}
                    Err(_) => return None,
                }
                Some(piece.len())
            }
            Played::Stopped { stop } => {
                self.stop = Some(stop);
                Some(piece.len())
            }
            Played::NoMemory => None,
        }
    }

    // The same where less than a frame is kept: the piece fills it up to a whole one.
    #[tactic(auto, using(crate::proofs::Steps::steps))]
    fn go_on(&mut self, piece: &[u8]) -> Option<usize>
        requires goes_on { self.old.stop ≡ None }
        requires some { 0 < length piece.now }
        ensures fed { IfSome result (λ n. self.new ≡ fed self.old (take n piece.now)) }
        ensures within { IfSome result (λ n. (0 < n) × (n ≤ length piece.now)) }
        ensures none { IsNone result → self.new ≡ self.old }
    {
        let had = self.rest.len();
        let more = piece.len().min(LONGEST.saturating_sub(had));
        let (front, _) = piece.split_at(more);
        match self.rest.extend(front) {
            Ok(()) => {}
            Err(_) => return None,
        }
        match play(self.alloc, &mut self.cloud, self.place, self.rest.slice()) {
            Played::Taken { len } => {
                self.place = self.place.saturating_add(len as u64);
                self.rest.truncate(0);
                Some(len - had)
            }
            Played::Kept => Some(more),
            Played::Stopped { stop } => {
                self.stop = Some(stop);
                self.rest.truncate(0);
                Some(more)
            }
            Played::NoMemory => {
                self.rest.truncate(had);
                None
            }
        }
    }
}
