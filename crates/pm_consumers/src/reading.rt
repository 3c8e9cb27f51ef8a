//! Consumers' files that are read one after another.

ghost use Rattle.std.specs.Prelude.{◌≡◌, ℕ, List, [], None, Some, IfOk, IsSome};
ghost use Rattle.std.specs.Option.{option_copied};
ghost use Rattle.pm_consumers.specs.Reading.{add_read, next_name, reading_of};

use pm_base::Txt;
use pm_consumer_files::NamedConsumer;
use pm_snapshot::Consumer;
use std::alloc::{AllocError, Global};
use std::marker::Model;

/// The names of the consumers that were listed, how many of their files were read, and the consumers of those that were
/// there.
#[derive(Drop)]
pub struct Reading {
    names: Vec<Txt>,
    read: usize,
    consumers: Vec<NamedConsumer>,
}

impl Model for Reading {
    ghost use Rattle.pm_consumers.specs.Reading.{reading_of, ReadingView};

    ghost Value = { ReadingView };

    ghost view = { λ r. reading_of r.names.items r.read r.consumers.items };
}

impl Reading {
    /// These names, of which no file was read.
    pub(crate) fn new(alloc: Global, names: Vec<Txt>) -> Reading
        ensures { result ≡ reading_of names.items 0 [] }
    {
        Reading {
            names,
            read: 0,
            consumers: Vec::new(alloc),
        }
    }

    /// The name of the consumer whose file is to be read next, or none where all were.
    pub fn next(&self) -> Option<&Txt>
        ensures { option_copied result ≡ next_name self.now }
    {
        self.names.as_slice().get(self.read)
    }

    /// The consumers whose files were read and were there.
    pub fn consumers(&self) -> &[NamedConsumer]
        ensures { result.now ≡ self.now.consumers }
    {
        self.consumers.as_slice()
    }

    /// The same, to be kept.
    pub fn into_consumers(self) -> Vec<NamedConsumer>
        ensures { result.items ≡ self.consumers }
    {
        let Reading {
            names,
            consumers,
            ..
        } = self;
        drop(names);
        consumers
    }

    /// A copy of that name, where a file is left.
    pub(crate) fn copy_next(&self, alloc: Global) -> Result<Txt, AllocError>
        requires { IsSome (next_name self.now) }
        ensures { IfOk result (λ name. next_name self.now ≡ Some name) }
    {
        match self.next() {
            Some(name) => name.copy(alloc),
            None => unreachable!(),
        }
    }

    /// With this consumer, which the file that was to be read next says.
    pub(crate) fn add(self, name: Txt, consumer: Consumer) -> Result<Reading, AllocError>
        requires { next_name self ≡ Some name }
        ensures { IfOk result (λ reading. reading ≡ add_read self name (Some consumer)) }
    {
        let Reading {
            names,
            read,
            consumers,
        } = self;
        let mut consumers = consumers;
        match consumers.push(NamedConsumer { name, consumer }) {
            Ok(()) => Ok(Reading {
                names,
                read: read + 1,
                consumers,
            }),
            Err(_) => Err(AllocError),
        }
    }

    /// Without the file that was to be read next, which isn't there.
    pub(crate) fn pass(self) -> Reading
        requires { IsSome (next_name self) }
        ensures { (name : List ℕ) → result ≡ add_read self name None }
    {
        let Reading {
            names,
            read,
            consumers,
        } = self;
        Reading {
            names,
            read: read + 1,
            consumers,
        }
    }
}
