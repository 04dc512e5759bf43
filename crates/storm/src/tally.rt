//! How much was done.
use std::fmt;
use storm_machine::{Replay, Run};
use storm_steps::Order;

/// How much was done.
#[derive(Clone, Copy, Drop)]
pub struct Tally {
    /// Seeds.
    pub seeds: u64,
    /// Steps.
    pub steps: u64,
    /// Connections of clients.
    pub requests: u64,
    /// Programs that were run.
    pub programs: u64,
    /// Steps in which a call of the disk failed while the power stayed.
    pub faults: u64,
    /// Steps after which the power failed.
    pub stops: u64,
    /// Moves to other versions.
    pub moves: u64,
    /// Plans that came true.
    pub plans: u64,
    /// Runs that forgot keys.
    pub forgets: u64,
    /// Dumps that were printed.
    pub dumps: u64,
    /// Stores that were restored on a new host.
    pub restores: u64,
}

impl Tally {
    /// Nothing was done.
    pub const NOTHING: Tally = Tally {
        seeds: 0,
        steps: 0,
        requests: 0,
        programs: 0,
        faults: 0,
        stops: 0,
        moves: 0,
        plans: 0,
        forgets: 0,
        dumps: 0,
        restores: 0,
    };

    /// Adds a plan that came true, where there was one.
    pub fn add_plan(&mut self, came: bool) {
        self.plans = self.plans.saturating_add(u64::from(came));
    }

    // Adds a run that ended well.
    fn add_done(&mut self, order: &Order) {
        let count = match order {
            Order::Forget => &mut self.forgets,
            Order::Dump => &mut self.dumps,
            Order::Restore => &mut self.restores,
            _ => return,
        };
        *count = count.saturating_add(1);
    }

    /// Adds a run that the machine went through.
    pub fn add(&mut self, run: &Run, replay: &Replay) {
        let stops = run.step.crash;
        let faults = run.seen.struck && !stops;
        let host = &replay.host;
        let programs = host.machine.runs.len() as u64;
        self.steps = self.steps.saturating_add(1);
        self.requests = self.requests.saturating_add(run.seen.replies.len() as u64);
        self.programs = self.programs.saturating_add(programs);
        self.faults = self.faults.saturating_add(u64::from(faults));
        self.stops = self.stops.saturating_add(u64::from(stops));
        self.moves = self.moves.saturating_add(u64::from(replay.moved.is_some()));
        if run.seen.status == 0 {
            self.add_done(&run.step.order);
        }
    }
}

impl fmt::Display for Tally {
    fn fmt<W: fmt::Write>(&self, f: &mut fmt::Formatter<W>) -> fmt::Result {
        let (seeds, steps, requests) = (self.seeds, self.steps, self.requests);
        let (programs, faults) = (self.programs, self.faults);
        let (stops, moves, plans) = (self.stops, self.moves, self.plans);
        let (forgets, dumps, restores) = (self.forgets, self.dumps, self.restores);
        write!(
            f,
            "{seeds} seeds, {steps} steps, {requests} requests, {programs} programs, {faults} faults, "
        )?;
        write!(
            f,
            "{stops} stops, {moves} moves, {plans} plans, {forgets} forgets, {dumps} dumps, {restores} restores"
        )
    }
}
