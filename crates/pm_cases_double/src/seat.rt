//! A process on a double: each call of its host is one of the double.

use crate::world::{World, held};
use pm_base::Txt;
use pm_folder_store::{Found, Host, HostError};
use std::alloc::Global;
use std::cell::{RefCell, RefMut};
use std::time::Duration;

/// What a process on a double has open.
#[derive(Drop)]
pub struct Handle {
    number: usize,
}

/// What happens beside a process.
pub trait Beside {
    /// Acts, if it is to, before the next call of the process.
    fn act(&mut self, world: &RefCell<World>) -> Result<(), HostError>;
}

/// Nothing happens beside a process.
#[derive(Clone, Copy)]
pub struct Nobody;

impl Beside for Nobody {
    fn act(&mut self, _world: &RefCell<World>) -> Result<(), HostError> {
        Ok(())
    }
}

/// A process on a double, and what happens beside it.
pub struct Seat<'a, B: Beside + Drop> {
    world: &'a RefCell<World>,
    beside: B,
}

impl<B: Beside + Drop> Drop for Seat<'_, B> {
    fn drop(self) {
        let Seat { world, beside } = self;
    }
}

impl<'a, B: Beside + Drop> Seat<'a, B> {
    /// A process that has nothing open.
    pub fn new(world: &'a RefCell<World>, beside: B) -> Seat<'a, B> {
        Seat { world, beside }
    }

    /// The double, for the next call of the process.
    fn double(&mut self) -> Result<RefMut<'a, World>, HostError> {
        self.beside.act(self.world)?;
        held(self.world)
    }
}

impl<B: Beside + Drop> Host for Seat<'_, B> {
    type File = Handle;

    fn look(&mut self, path: &str) -> Result<Found, HostError> {
        self.double()?.look(path)
    }

    fn look_through(&mut self, path: &str) -> Result<Found, HostError> {
        self.double()?.look_through(path)
    }

    fn look_at(&mut self, file: &Handle) -> Result<Found, HostError> {
        self.double()?.look_at(file.number)
    }

    fn names(&mut self, alloc: Global, folder: &str) -> Result<Vec<Txt>, HostError> {
        self.double()?.names(alloc, folder)
    }

    fn is_empty(&mut self, folder: &str) -> Result<bool, HostError> {
        self.double()?.is_empty(folder)
    }

    fn open(&mut self, path: &str) -> Result<Handle, HostError> {
        let number = self.double()?.open(path)?;
        Ok(Handle { number })
    }

    fn make(&mut self, path: &str) -> Result<Handle, HostError> {
        let number = self.double()?.make(path)?;
        Ok(Handle { number })
    }

    fn read(&mut self, file: &mut Handle, into: &mut Vec<u8>) -> Result<(), HostError> {
        self.double()?.read(file.number, into)
    }

    fn write(&mut self, file: &mut Handle, bytes: &[u8]) -> Result<(), HostError> {
        self.double()?.write(file.number, bytes)
    }

    fn copy_mode(&mut self, from: &str, file: &Handle) -> Result<(), HostError> {
        self.double()?.copy_mode(from, file.number)
    }

    fn set_changed(&mut self, file: &Handle, time: Duration) -> Result<(), HostError> {
        self.double()?.set_changed(file.number, time)
    }

    fn sync(&mut self, file: &Handle) -> Result<(), HostError> {
        self.double()?.sync(file.number)
    }

    fn try_lock(&mut self, file: &Handle, is_alone: bool) -> Result<bool, HostError> {
        self.double()?.try_lock(file.number, is_alone)
    }

    fn close(&mut self, file: Handle) {
        if let Ok(mut world) = self.world.try_borrow_mut() {
            world.close(file.number);
        }
    }

    fn rename(&mut self, from: &str, to: &str) -> Result<(), HostError> {
        self.double()?.rename(from, to)
    }

    fn remove_file(&mut self, path: &str) -> Result<(), HostError> {
        self.double()?.remove_file(path)
    }

    fn create_dir(&mut self, path: &str) -> Result<(), HostError> {
        self.double()?.create_dir(path)
    }

    fn remove_dir(&mut self, path: &str) -> Result<(), HostError> {
        self.double()?.remove_dir(path)
    }

    fn since_1970(&mut self) -> Result<Duration, HostError> {
        self.double()?.time()
    }

    fn monotonic(&mut self) -> Result<Duration, HostError> {
        self.double()?.time()
    }
}
