//! Where a consumer stands.

ghost use Rattle.std.specs.Prelude.{◌≡◌};
ghost use Rattle.pm_read_consumer.specs.Reader.{Says};
ghost use Rattle.pm_command_consume.specs.Place.{settled_next, StandsAs};

use pm_base::Blob;
use pm_read_consumer::FoundConsumer;
use pm_snapshot::Consumer;

/// The snapshot that a settled consumer reads next, and the bytes of its file, which say so.
#[derive(Drop)]
pub struct Place {
    pub next: u64,
    pub bytes: Blob,
}

/// How a consumer stands: it is settled; or it isn't, and this was found of it.
#[derive(Drop)]
pub enum Standing {
    Settled { place: Place },
    Unsettled { found: Option<Blob> },
}

/// How a consumer stands of which this was found.
pub(crate) fn standing_of(found: FoundConsumer) -> Standing
    requires { Says found.found found.consumer }
    ensures { StandsAs found result }
{
    let FoundConsumer { found, consumer } = found;
    let bytes = match found {
        Some(bytes) => bytes,
        None => return Standing::Unsettled { found: None },
    };
    match settled_next(consumer) {
        Some(next) => Standing::Settled {
            place: Place { next, bytes },
        },
        None => Standing::Unsettled { found: Some(bytes) },
    }
}

/// The snapshot that a consumer reads next, where it is settled.
fn settled_next(consumer: Option<Consumer>) -> Option<u64>
    ensures { result ≡ settled_next consumer }
{
    match consumer {
        Some(consumer) if !consumer.fresh => Some(consumer.next),
        _ => None,
    }
}
