//! What stands in a double before the calls, as words with blanks between them.
//!
//! | Word | What it puts |
//! |---|---|
//! | `PATH/` | a folder; the folders on the way are made too |
//! | `PATH=BYTES` | a file; with `!` at the end somebody has locked it alone, and never closes it |
//! | `PATH/\..` | any of these, under a name that isn't UTF-8 |
//! | `PATH->OTHER` | a link to what stands at the other path, or to nothing |
//! | `~PATH` | nothing: what stands there is taken away |
//! | `?WORD` | the same, but a power loss may undo the name |
//! | `-` | nothing |

use crate::parts::{Bytes, Lock, Owner, Thing};
use crate::world::{TOP, World, there};
use pm_folder_store::HostError;
use std::alloc::Global;

/// A world in which all of these words say what stands there.
pub fn world_of(alloc: Global, words: &str) -> Result<World, HostError> {
    let mut world = World::new(alloc)?;
    put_words(&mut world, words, false)?;
    world.settle_all();
    put_words(&mut world, words, true)?;
    world.wait();
    Ok(world)
}

/// Puts the words that a power loss may undo, or the others.
fn put_words(world: &mut World, words: &str, is_pending: bool) -> Result<(), HostError> {
    for word in words.split(' ') {
        let named = word.strip_prefix('?');
        if named.is_some() == is_pending {
            put_word(world, named.unwrap_or(word))?;
        }
    }
    Ok(())
}

/// Puts what a word says, past any store.
pub fn put_word(world: &mut World, word: &str) -> Result<(), HostError> {
    if word == "-" {
        return Ok(());
    }
    if let Some(path) = word.strip_prefix('~') {
        return take_away(world, path);
    }
    if let Some((path, text)) = word.rsplit_once('=') {
        return put_file(world, path, text);
    }
    if let Some((path, other)) = word.split_once("->") {
        let end = world.thing(other).ok();
        let _link = put(world, path, Thing::Link(end))?;
        return Ok(());
    }
    let _folder = folders(world, word.strip_suffix('/').unwrap_or(word))?;
    Ok(())
}

/// Puts a file, which somebody has locked if an exclamation mark follows its bytes.
fn put_file(world: &mut World, path: &str, text: &str) -> Result<(), HostError> {
    let locked = text.strip_suffix('!');
    let bytes = Bytes::synced(world.alloc, locked.unwrap_or(text).as_bytes())?;
    let file = put(world, path, Thing::File(bytes))?;
    if locked.is_some() {
        let _handle = world.hold_by(Owner::Lasting, file, path, Lock::Alone)?;
    }
    Ok(())
}

/// Takes away what stands at a path.
fn take_away(world: &mut World, path: &str) -> Result<(), HostError> {
    let spot = world.spot(path)?;
    let _thing = there(spot)?;
    world.lead(spot.folder, spot.name, None)
}

/// Puts a thing at a path, in place of what stands there.
fn put(world: &mut World, path: &str, thing: Thing) -> Result<usize, HostError> {
    let (around, name) = path.rsplit_once('/').unwrap_or(("", path));
    let folder = folders(world, around)?;
    let number = world.add(thing, folder)?;
    world.lead(folder, name, Some(number))?;
    Ok(number)
}

/// The folder at a path. It is made, and those on its way.
fn folders(world: &mut World, path: &str) -> Result<usize, HostError> {
    let mut folder = TOP;
    for name in path.split('/') {
        if !name.is_empty() {
            folder = folder_in(world, folder, name)?;
        }
    }
    Ok(folder)
}

/// The folder of a name in a folder. It is made where nothing has that name.
fn folder_in(world: &mut World, folder: usize, name: &str) -> Result<usize, HostError> {
    if let Some(found) = world.led(folder, name)? {
        return world.end_of(found);
    }
    let number = world.add(Thing::Folder(Vec::new(world.alloc)), folder)?;
    world.lead(folder, name, Some(number))?;
    Ok(number)
}
