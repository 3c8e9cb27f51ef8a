//! The names of new files.

ghost use Rattle.std.specs.Prelude.{◌≡◌, ◌<◌, All, IfOk, OnOk, OnErr, length};
ghost use Rattle.pm_values.specs.Names.{IsNaming, naming, counted, based, name_of};

use pm_base::Txt;
use std::alloc::{AllocError, Global};
use std::marker::Model;
use uuid::Uuid;

/// Gives a new file its name, `<prefix><identifier>-<actor>-<base>-<count><suffix>`. The
/// identifier is the session as a UUID, in lower case with hyphens; the numbers are decimal. The
/// count is the number of names that were given before.
#[derive(Drop)]
pub struct Names {
    session: [u8; 16],
    actor: u32,
    base: u64,
    count: u64,
}

impl Model for Names {
    ghost use Rattle.pm_values.specs.Names.{Naming, IsNaming, with_count};

    ghost Value = { Naming };

    ghost view = { λ n. with_count n.session n.actor n.base n.count };

    ghost invariant = { λ n. IsNaming (with_count n.session n.actor n.base n.count) };
}

impl Names {
    /// The names of an actor of a session, from the count 0. The base is the newest snapshot that
    /// the actor had read.
    pub fn new(session: [u8; 16], actor: u32, base: u64) -> Names
        ensures { result ≡ naming session actor base }
    {
        bytes_fit(&session);
        Names {
            session,
            actor,
            base,
            count: 0,
        }
    }

    /// The next name, between a prefix and a suffix.
    pub fn take(&mut self, alloc: Global, prefix: &str, suffix: &str) -> Result<Txt, AllocError>
        requires { self.old.count < 18446744073709551615 }
        ensures name { IfOk result (λ name. name ≡ name_of prefix.now suffix.now self.old) }
        ensures counted { OnOk result (self.new ≡ counted self.old) }
        ensures kept { OnErr result (self.new ≡ self.old) }
        ensures range { IsNaming self.old }
    {
        let session = Uuid::from_bytes(self.session);
        let (actor, base, count) = (self.actor, self.base, self.count);
        let text = format!(in alloc; "{prefix}{session}-{actor}-{base}-{count}{suffix}")?;
        let name = Txt::from_str(alloc, text.as_str())?;
        self.count += 1;
        Ok(name)
    }

    /// Sets the base of the names that follow.
    pub fn set_base(&mut self, base: u64)
        ensures { self.new ≡ based base self.old }
    {
        self.base = base;
    }

    /// The session, as `new` was given it.
    pub fn session(&self) -> [u8; 16]
        ensures { result ≡ self.now.session }
    {
        self.session
    }

    /// The actor, as `new` was given it.
    pub fn actor(&self) -> u32
        ensures { result ≡ self.now.actor }
    {
        self.actor
    }
}

/// Each byte has eight bits, which no clause says of an array: this walk reads them, and has no effect.
fn bytes_fit(session: &[u8; 16])
    ensures { (length session.now ≡ 16) × All (λ b. b < 256) session.now }
{
    for i in 0..16 {
        let _ = session[i];
    }
}
