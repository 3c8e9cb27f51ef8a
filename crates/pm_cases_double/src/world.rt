//! The double of an operating system: folders, files and links in memory, with what a power loss may undo.

use crate::parts::{Held, Name, Node, Owner, Thing};
use crate::steps::{Act, End, Plan, Step};
use pm_folder_store::HostError;
use std::alloc::Global;
use std::cell::{Ref, RefCell, RefMut};

/// The folder in which the program runs.
pub(crate) const TOP: usize = 0;

/// How many microseconds times of change are apart: two changes within them have the same time.
const TICK: u64 = 4_000;

/// How many microseconds each look at the clock takes.
const GLANCE: u64 = 20;

/// What stands there and who has it open, the time, the calls of the process that is watched, what is planned for them,
/// and what a rival was answered.
pub struct World {
    pub(crate) alloc: Global,
    pub(crate) nodes: Vec<Node>,
    pub(crate) handles: Vec<Option<Held>>,
    pub(crate) clock: u64,
    pub(crate) calls: u64,
    pub(crate) plan: Plan,
    pub(crate) steps: Vec<Step>,
    pub(crate) is_aside: bool,
    pub(crate) met: String,
}

impl Drop for World {
    fn drop(self) {
        let World {
            alloc,
            nodes,
            handles,
            clock,
            calls,
            plan,
            steps,
            is_aside,
            met,
        } = self;
    }
}

/// A world that is shared, to look at it.
pub fn lent(world: &RefCell<World>) -> Result<Ref<'_, World>, HostError> {
    match world.try_borrow() {
        Ok(world) => Ok(world),
        Err(_) => Err(HostError::Other),
    }
}

/// A world that is shared, to change it.
pub fn held(world: &RefCell<World>) -> Result<RefMut<'_, World>, HostError> {
    match world.try_borrow_mut() {
        Ok(world) => Ok(world),
        Err(_) => Err(HostError::Other),
    }
}

/// Where a path leads: the folder that it stands in, its name there, and what stands there.
#[derive(Clone, Copy)]
pub(crate) struct Spot<'a> {
    pub(crate) folder: usize,
    pub(crate) name: &'a str,
    pub(crate) thing: Option<usize>,
}

impl World {
    /// A world with nothing in it, long after 1970.
    pub(crate) fn new(alloc: Global) -> Result<World, HostError> {
        let mut nodes = Vec::new(alloc);
        nodes.push(Node {
            thing: Thing::Folder(Vec::new(alloc)),
            changed: 0,
            touched: 0,
            around: TOP,
        })?;
        Ok(World::of(alloc, nodes))
    }

    /// A world in which this stands, and nobody has anything open.
    pub(crate) fn of(alloc: Global, nodes: Vec<Node>) -> World {
        World {
            alloc,
            nodes,
            handles: Vec::new(alloc),
            clock: 1_000_000_000,
            calls: 0,
            plan: Plan::healthy(),
            steps: Vec::new(alloc),
            is_aside: false,
            met: String::new(alloc),
        }
    }

    /// The allocator.
    pub fn alloc(&self) -> Global {
        self.alloc
    }

    /// How many calls were counted.
    pub fn calls(&self) -> u64 {
        self.calls
    }

    /// The calls that were noted.
    pub fn steps(&self) -> &[Step] {
        self.steps.as_slice()
    }

    /// Begins to count calls anew, of which these fail.
    pub fn start(&mut self, plan: Plan) {
        self.plan = plan;
        self.calls = 0;
        self.steps.clear();
    }

    /// No call fails any more.
    pub fn heal(&mut self) {
        self.plan = Plan::healthy();
    }

    /// Has two seconds pass.
    pub fn wait(&mut self) {
        self.clock = self.clock.saturating_add(2_000_000);
    }

    /// Has the next look at the clock find a time, in microseconds since 1970. It may have gone back.
    pub fn set_clock(&mut self, time: u64) {
        self.clock = time.saturating_sub(GLANCE);
    }

    /// Whether the rival acts before the next call. It does so once.
    pub fn meets(&mut self) -> bool {
        let is_met = !self.is_aside && self.calls.saturating_add(1) == self.plan.meets_at;
        if is_met {
            self.plan.meets_at = 0;
        }
        is_met
    }

    /// Keeps what the rival was answered.
    pub fn keep_met(&mut self, answer: String) {
        self.met = answer;
    }

    /// What the rival was answered.
    pub fn met(&self) -> &str {
        self.met.as_str()
    }

    /// Ends the process that is watched: what it has open is closed.
    pub fn end_watched(&mut self) {
        close_all(&mut self.handles, false);
        self.heal();
    }

    /// Begins a process that acts beside the one that is watched.
    pub fn begin_aside(&mut self) {
        self.is_aside = true;
    }

    /// Ends the one that acts beside it.
    pub fn end_aside(&mut self) {
        close_all(&mut self.handles, true);
        self.is_aside = false;
    }

    /// Whether the process that is watched has anything open.
    pub fn is_open(&self) -> bool {
        self.handles.iter().any(|held| is_of(held, false))
    }

    /// Counts and notes a call, and fails it if it is to fail.
    pub(crate) fn begin(&mut self, act: Act, path: &str, to: &str) -> Result<(), HostError> {
        if self.is_aside {
            return Ok(());
        }
        self.calls = self.calls.saturating_add(1);
        let is_failed = self.plan.fails(self.calls);
        if is_failed || !self.is_known(act, path) {
            let step = Step::new(self.alloc, self.calls, act, path, to)?;
            self.steps.push(step)?;
        }
        if is_failed {
            self.end_step(End::Failed);
            return Err(self.plan.error);
        }
        Ok(())
    }

    /// Whether a call isn't noted: a look at the clock, and one that asks again for a lock that wasn't given.
    fn is_known(&self, act: Act, path: &str) -> bool {
        match (act, self.steps.last()) {
            (Act::Clock, _) => true,
            (Act::Lock | Act::Share, Some(step)) => step.is_refused_lock(path),
            _ => false,
        }
    }

    /// Notes what came of the last call.
    fn end_step(&mut self, end: End) {
        if let Some(step) = self.steps.last_mut() {
            step.end = end;
        }
    }

    /// Notes that the last call was done.
    pub(crate) fn done(&mut self) {
        if !self.is_aside {
            self.end_step(End::Done);
        }
    }

    /// The bytes of a file at a path, if one is there.
    pub fn content(&self, path: &str) -> Option<&[u8]> {
        match self.thing(path) {
            Ok(thing) => self.bytes(thing).ok(),
            Err(_) => None,
        }
    }

    /// Has everything on the disk.
    pub(crate) fn settle_all(&mut self) {
        for thing in 0..self.nodes.len() {
            self.settle(thing);
        }
    }

    /// The time of a change that is made now.
    pub(crate) fn tick(&self) -> u64 {
        self.clock.saturating_sub(self.clock % TICK)
    }

    /// The time, at a look at the clock.
    pub(crate) fn glance(&mut self) -> u64 {
        self.clock = self.clock.saturating_add(GLANCE);
        self.clock
    }

    /// What stands somewhere.
    pub(crate) fn node(&self, thing: usize) -> Result<&Node, HostError> {
        match self.nodes.get(thing) {
            Some(node) => Ok(node),
            None => Err(HostError::NotFound),
        }
    }

    /// The names in a folder.
    pub(crate) fn names_of(&self, folder: usize) -> Result<&[Name], HostError> {
        match &self.node(folder)?.thing {
            Thing::Folder(names) => Ok(names.as_slice()),
            _ => Err(HostError::NotADirectory),
        }
    }

    /// What a name in a folder leads to now.
    pub(crate) fn led(&self, folder: usize, name: &str) -> Result<Option<usize>, HostError> {
        Ok(led(self.names_of(folder)?, name))
    }

    /// What a link leads to; anything else itself.
    pub(crate) fn end_of(&self, thing: usize) -> Result<usize, HostError> {
        match &self.node(thing)?.thing {
            Thing::Link(Some(end)) => Ok(*end),
            Thing::Link(None) => Err(HostError::NotFound),
            _ => Ok(thing),
        }
    }

    /// Where a path leads. A link at its end isn't followed, and those on its way are.
    pub(crate) fn spot<'a>(&self, path: &'a str) -> Result<Spot<'a>, HostError> {
        let mut spot = Spot {
            folder: TOP,
            name: "",
            thing: Some(TOP),
        };
        for part in path.split('/') {
            if !part.is_empty() {
                spot = self.next_spot(spot, part)?;
            }
        }
        Ok(spot)
    }

    /// Where one comes from a spot by a name.
    fn next_spot<'a>(&self, spot: Spot<'a>, name: &'a str) -> Result<Spot<'a>, HostError> {
        let folder = self.end_of(there(spot)?)?;
        let names = self.names_of(folder)?;
        let around = self.node(folder)?.around;
        Ok(match name {
            "." => spot_of(folder),
            ".." => spot_of(around),
            _ => Spot {
                folder,
                name,
                thing: led(names, name),
            },
        })
    }

    /// What stands at a path.
    pub(crate) fn thing(&self, path: &str) -> Result<usize, HostError> {
        there(self.spot(path)?)
    }

    /// What a path leads to.
    pub(crate) fn end(&self, path: &str) -> Result<usize, HostError> {
        self.end_of(self.thing(path)?)
    }

    /// Has a name in a folder lead to something else.
    pub(crate) fn lead(
        &mut self,
        folder: usize,
        name: &str,
        thing: Option<usize>,
    ) -> Result<(), HostError> {
        let tick = self.tick();
        let alloc = self.alloc;
        let Some(node) = self.nodes.get_mut(folder) else {
            return Err(HostError::NotFound);
        };
        node.changed = tick;
        node.touched = tick;
        let Thing::Folder(names) = &mut node.thing else {
            return Err(HostError::NotADirectory);
        };
        lead_name(alloc, names, name, thing)
    }

    /// Adds a thing that has no name yet, and answers its number.
    pub(crate) fn add(&mut self, thing: Thing, around: usize) -> Result<usize, HostError> {
        let number = self.nodes.len();
        let node = Node {
            thing,
            changed: self.tick(),
            touched: self.tick(),
            around,
        };
        self.nodes.push(node)?;
        Ok(number)
    }

    /// Has a folder's names or a file's bytes on the disk.
    pub(crate) fn settle(&mut self, thing: usize) {
        let Some(node) = self.nodes.get_mut(thing) else {
            return;
        };
        match &mut node.thing {
            Thing::File(bytes) => bytes.is_synced = true,
            Thing::Folder(names) => settle_names(names),
            Thing::Link(_) => {}
        }
    }
}

/// The spot of a folder without a name.
fn spot_of<'a>(folder: usize) -> Spot<'a> {
    Spot {
        folder,
        name: "",
        thing: Some(folder),
    }
}

/// What stands at a spot.
pub(crate) fn there(spot: Spot) -> Result<usize, HostError> {
    match spot.thing {
        Some(thing) => Ok(thing),
        None => Err(HostError::NotFound),
    }
}

/// What a name of these leads to now.
fn led(names: &[Name], name: &str) -> Option<usize> {
    for other in names {
        if other.text.as_str() == name {
            return other.now;
        }
    }
    None
}

/// Has a name of these lead to something else; it is added where it isn't there.
fn lead_name(
    alloc: Global,
    names: &mut Vec<Name>,
    name: &str,
    thing: Option<usize>,
) -> Result<(), HostError> {
    let at = names.iter().position(|other| other.text.as_str() == name);
    let at = at.unwrap_or(names.len());
    if at == names.len() {
        names.push(Name::new(alloc, name)?)?;
    }
    if let Some(found) = names.get_mut(at) {
        found.lead(thing)?;
    }
    Ok(())
}

/// Has the disk know what these names lead to.
fn settle_names(names: &mut Vec<Name>) {
    for name in names.iter_mut() {
        name.settle();
    }
}

/// Closes what the process that is watched has open, or else what the one beside it has.
fn close_all(handles: &mut Vec<Option<Held>>, is_aside: bool) {
    for held in handles.iter_mut() {
        if is_of(held, is_aside) {
            *held = None;
        }
    }
}

/// Whether the process that is watched has something open, or else the one beside it.
fn is_of(held: &Option<Held>, is_aside: bool) -> bool {
    match held {
        Some(held) => match held.owner {
            Owner::Watched => !is_aside,
            Owner::Aside => is_aside,
            Owner::Lasting => false,
        },
        None => false,
    }
}
