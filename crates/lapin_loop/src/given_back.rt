//! What a writer does with a frame that it could not write: it gives it back, and the next frame request hands it out once more.
ghost use Rattle.std.specs.Prelude.{◌≡◌, Some, not, ◌||◌, if◌then◌else◌};
ghost use Rattle.lapin_rules.specs.Phases.{is_lost as is_lost_lem};
ghost use Rattle.lapin_outbox.specs.Returned.{is_retried};
ghost use Rattle.lapin_machine.specs.World.{with_returned};

use lapin_session::Session;
use lapin_types::{ConnectionState, Left};

/// Gives the frame back that was handed out last, and says whether it did: not where the connection is lost, nor where a frame
/// was given back that is not handed out again yet. The frame is gone then.
pub fn give_back(session: &mut Session, left: Left) -> bool
    ensures told { result ≡ not (is_lost_lem session.old.wire.link || is_retried session.old.returned) }
    ensures session { session.new ≡ (if result then with_returned (Some left) session.old else session.old) }
{
    if is_lost(session) || session.retrying() {
        drop(left);
        return false;
    }
    session.retry(left);
    true
}

fn is_lost(session: &Session) -> bool
    ensures { result ≡ is_lost_lem session.now.wire.link }
{
    matches!(session.connection_state(), ConnectionState::Lost)
}
