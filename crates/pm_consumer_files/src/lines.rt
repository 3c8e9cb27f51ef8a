//! What is printed of consumers.

ghost use Rattle.std.specs.Prelude.{◌≡◌, IfOk};
ghost use Rattle.pm_consumer_files.specs.Lines.{consumer_line, consumers_text};

use pm_base::Txt;
use pm_snapshot::Consumer;
use std::alloc::{AllocError, Global};

/// A consumer under its name.
#[derive(Drop)]
pub struct NamedConsumer {
    pub name: Txt,
    pub consumer: Consumer,
}

/// The lines of consumers, each with its newline.
pub fn print_consumers(alloc: Global, consumers: &[NamedConsumer]) -> Result<Vec<u8>, AllocError>
    ensures { IfOk result (λ text. text.items ≡ consumers_text consumers.now) }
{
    let mut text = Vec::new(alloc);
    for consumer in consumers {
        text.extend_from_slice(print_consumer(alloc, consumer)?.as_slice())?;
        text.push(b'\n')?;
    }
    Ok(text)
}

/// The line of a consumer, without its newline: its name, the snapshot that it reads next, and whether it is new.
fn print_consumer(alloc: Global, named: &NamedConsumer) -> Result<Vec<u8>, AllocError>
    ensures { IfOk result (λ text. text.items ≡ consumer_line named.now) }
{
    let (name, next) = (named.name.as_str(), named.consumer.next);
    if named.consumer.fresh {
        let text = format!(in alloc; "{name} {next} new")?;
        Ok(text.into_bytes())
    } else {
        let text = format!(in alloc; "{name} {next}")?;
        Ok(text.into_bytes())
    }
}
