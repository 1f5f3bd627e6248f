//! Refusals of growths, and the rounds of calls in which each growth is refused.
use std::alloc::Global;
use std::sync::Wait;

/// What a test asks of the library that refuses: no memory has so many bytes, so it is refused
/// where the library isn't loaded.
const COMMAND: usize = 1 << 62;

/// With so many bytes more it asks whether those stand at most.
const MEASURE: usize = COMMAND + (1 << 61);

/// No call takes so many growths.
pub(crate) const MOST: u32 = 2000;

/// From now on the growth of that number, from 1 on, is refused.
pub(crate) fn refuse(alloc: Global, number: u32) {
    let _ = Vec::<u8>::with_capacity(alloc, COMMAND + number as usize);
}

/// Nothing is refused any more. Says whether a growth was.
pub(crate) fn was_refused(alloc: Global) -> bool {
    Vec::<u8>::with_capacity(alloc, COMMAND).is_ok()
}

/// How many bytes the blocks have that stand, where the library is loaded, which counts them.
pub(crate) fn standing(alloc: Global) -> Option<usize> {
    let (mut low, mut high) = (0usize, 1usize << 40);
    if !stand_at_most(alloc, high) {
        return None;
    }
    // There are more than `low` or none, and at most `high`.
    for _ in 0..40 {
        let middle = low.saturating_add(high.saturating_sub(low) / 2);
        if stand_at_most(alloc, middle) {
            high = middle;
        } else {
            low = middle;
        }
    }
    Some(high)
}

fn stand_at_most(alloc: Global, bytes: usize) -> bool {
    Vec::<u8>::with_capacity(alloc, MEASURE.saturating_add(bytes)).is_ok()
}

/// What a round of a call came to, in which one growth was to be refused.
#[derive(Clone, Copy)]
pub(crate) enum Round {
    /// None was left to be refused, and the call answered as it ought to.
    Done,
    /// One was refused, and all was as it ought to be.
    Refused,
    /// One was refused, and this was not as it ought to be.
    Wrong(Fault),
}

/// What was not as it ought to be where a growth was refused.
#[derive(Clone, Copy, Debug)]
pub(crate) enum Fault {
    /// The call answered another than want of memory, or wanted memory where no growth was refused.
    Answer,
    /// The state was not as before the call.
    State,
    /// The call, made again, or one after it, answered another than where nothing had been refused.
    Later,
    /// What the test begins with was not to be had.
    Beginning,
}

/// What the rounds of a call, or of several, came to.
#[derive(Clone, Copy, Debug)]
pub(crate) struct Rounds {
    /// In how many a growth was refused.
    refused: u32,
    /// The first that was not as it ought to be: of which call, at which growth, and what.
    wrong: Option<(usize, u32, Fault)>,
}

impl Rounds {
    pub(crate) fn none() -> Rounds {
        Rounds {
            refused: 0,
            wrong: None,
        }
    }

    /// Counts a round of that call. Says whether another is to follow.
    pub(crate) fn count(&mut self, call: usize, growth: u32, round: Round) -> bool {
        match round {
            Round::Done => false,
            Round::Refused => {
                self.refused = self.refused.saturating_add(1);
                true
            }
            Round::Wrong(fault) => {
                if self.wrong.is_none() {
                    self.wrong = Some((call, growth, fault));
                }
                false
            }
        }
    }

    /// Whether each round was as it ought to be.
    pub(crate) fn are_well(&self) -> bool {
        self.wrong.is_none()
    }
}

/// Takes calls, so that what it answers with memory can be held against what it answers where a
/// growth was refused.
pub(crate) trait Subject: Sized + Drop {
    /// What it is asked.
    type Call: Copy;
    /// What it answers.
    type Told: Copy + PartialEq;

    /// One that was asked nothing yet.
    fn fresh<R: Wait>(rt: &R, alloc: Global) -> Option<Self>;

    /// Makes the call.
    fn answer<R: Wait>(&mut self, rt: &R, call: Self::Call) -> Self::Told;

    /// What is answered where memory is wanted.
    fn out_of_memory() -> Self::Told;

    /// Whether the call may answer as if nothing had been refused, since it asks for room at once
    /// and, where that is refused, goes on growth by growth.
    fn may_do_without(call: Self::Call) -> bool;

    /// Whether both have the same pages and live keys, and find the same under the keys that are
    /// told.
    fn is_like<R: Wait>(&mut self, rt: &R, twin: &mut Self, told: &[Self::Told]) -> bool;
}

/// Calls, with what is answered to them where there is memory.
#[derive(Drop)]
pub(crate) struct Script<S: Subject> {
    calls: Vec<S::Call>,
    told: Vec<S::Told>,
}

impl<S: Subject> Script<S> {
    /// These calls, with the answers of one that was asked nothing yet.
    pub(crate) fn new<R: Wait>(rt: &R, alloc: Global, calls: Vec<S::Call>) -> Option<Script<S>> {
        let mut subject = S::fresh(rt, alloc)?;
        let mut told = Vec::new(alloc);
        for call in calls.iter() {
            told.push(subject.answer(rt, *call)).ok()?;
        }
        Some(Script { calls, told })
    }

    /// Whether the calls from that place up to that one are answered so.
    fn is_answered<R: Wait>(&self, rt: &R, subject: &mut S, from: usize, to: usize) -> bool {
        for place in from..to {
            let (Some(call), Some(wanted)) = (self.calls.get(place), self.told.get(place)) else {
                return false;
            };
            if subject.answer(rt, *call) != *wanted {
                return false;
            }
        }
        true
    }

    /// One that has answered the calls before that place.
    fn at<R: Wait>(&self, rt: &R, alloc: Global, place: usize) -> Option<S> {
        let mut subject = S::fresh(rt, alloc)?;
        if self.is_answered(rt, &mut subject, 0, place) {
            Some(subject)
        } else {
            None
        }
    }

    /// The call at that place, whose growth of that number is refused, beside a twin that isn't
    /// asked; then it is made again, and so are all calls after it.
    fn round<R: Wait>(
        &self,
        rt: &R,
        alloc: Global,
        subject: &mut S,
        twin: &mut S,
        place: usize,
        growth: u32,
    ) -> Round {
        let (Some(call), Some(wanted)) = (self.calls.get(place), self.told.get(place)) else {
            return Round::Wrong(Fault::Beginning);
        };
        refuse(alloc, growth);
        let answer = subject.answer(rt, *call);
        let is_refused = was_refused(alloc);
        if answer == *wanted && !is_refused {
            return Round::Done;
        }
        if answer == *wanted && S::may_do_without(*call) {
            return self.goes_on(rt, subject, place + 1);
        }
        if answer != S::out_of_memory() || !is_refused {
            return Round::Wrong(Fault::Answer);
        }
        if !subject.is_like(rt, twin, &self.told) {
            return Round::Wrong(Fault::State);
        }
        self.goes_on(rt, subject, place)
    }

    /// A round in which a growth was refused: what it comes to when the calls from that place on
    /// are made.
    fn goes_on<R: Wait>(&self, rt: &R, subject: &mut S, place: usize) -> Round {
        if self.is_answered(rt, subject, place, self.calls.len()) {
            Round::Refused
        } else {
            Round::Wrong(Fault::Later)
        }
    }

    /// Refuses each growth of the call at that place, and counts them; then the call is answered.
    fn rounds_at<R: Wait>(
        &self,
        rt: &R,
        alloc: Global,
        mut subject: S,
        twin: &mut S,
        place: usize,
        rounds: &mut Rounds,
    ) -> Option<S> {
        for growth in 1..MOST {
            let round = self.round(rt, alloc, &mut subject, twin, place, growth);
            if !rounds.count(place, growth, round) {
                break;
            }
            subject = self.at(rt, alloc, place)?;
        }
        Some(subject)
    }

    /// Refuses each growth of each call, until something is not as it ought to be. None where it
    /// could not begin or go on.
    pub(crate) fn rounds<R: Wait>(&self, rt: &R, alloc: Global) -> Option<Rounds> {
        let mut rounds = Rounds::none();
        let mut subject = S::fresh(rt, alloc)?;
        let mut twin = S::fresh(rt, alloc)?;
        for place in 0..self.calls.len() {
            subject = self.rounds_at(rt, alloc, subject, &mut twin, place, &mut rounds)?;
            if !rounds.are_well() {
                return Some(rounds);
            }
            if !self.is_answered(rt, &mut twin, place, place + 1) {
                return None;
            }
        }
        Some(rounds)
    }
}
