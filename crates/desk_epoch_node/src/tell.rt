//! What is sent to a node that lacks entries of a past epoch.

ghost use Rattle.std.specs.Prelude.{◌≡◌, IfOk};
ghost use Rattle.desk_epoch_node.specs.Does.{past_log_packet};

use desk_log::Log;
use desk_types::{Items, Message, Packet, WantOfMemory};

/// The packet by which node `from` tells the log of a past epoch after a place, `None` where the log has no such
/// place. It takes memory for each entry.
pub fn tell_log(from: u8, log: &Log, base: u64) -> Result<Option<Packet>, WantOfMemory>
    ensures { IfOk result (λ packet. packet ≡ past_log_packet from log.now base) }
{
    if base > log.len() {
        return Ok(None);
    }
    let entries = log.copy_after(base)?;
    Ok(Some(Packet::new(Message::NewState {
        from,
        view: 0,
        base,
        commit: log.len(),
        entries: Items::from_vec(entries),
    })))
}
