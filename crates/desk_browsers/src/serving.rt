//! One connection of a browser, whose requests come in time.

ghost use Rattle.std.specs.Prelude.{◌≡◌, ℕ, List, ◌++◌, OnOk};
ghost use Rattle.std.specs.Io.KnownBytes.{Appends, Consumes};
ghost use Rattle.http_server.specs.Connection.{config_of, history};
ghost use Rattle.http_server.specs.History.{IsDone, new_history};
ghost use Rattle.desk_browsers.specs.declared.serving.TheConstants.{BODY_BYTES};
ghost use Rattle.http_server.specs.Exchange.{Calls};

use http_server::{Config, Connection, Service};
use std::alloc::Global;
use std::hash::RandomState;
use std::io::{self, ErrorKind, Read, Write};
use std::time::{Clock, Duration, Instant};

/// The longest body of a request, in bytes.
const BODY_BYTES: usize = 65_536;

/// For how many seconds the bytes of a request may come.
const REQUEST_SECONDS: u64 = 20;

/// A new connection. Its heads have at most 16 KiB and 64 fields.
pub fn new_connection(alloc: Global, keys: RandomState) -> Connection
    ensures nothing { history result ≡ new_history }
    ensures bodies { (config_of result).max_body_len ≡ BODY_BYTES }
    ensures heads { (config_of result).limits.max_head_len ≡ 16_384 }
{
    let mut config = Config::default();
    config.max_body_len = BODY_BYTES;
    Connection::new(alloc, keys, config)
}

/// Whether bytes of a request come too late, for which was waited since then. They do where the clock fails.
fn is_late<R: Clock>(rt: &R, began: &Option<Instant>) -> bool {
    let passed = match began {
        Some(began) => began.elapsed(rt),
        None => return true,
    };
    match passed {
        Ok(passed) => passed >= Duration::from_secs(REQUEST_SECONDS),
        Err(_) => true,
    }
}

/// Reads, answers and writes until the connection is done. It ends with an error where a read or a write fails, and
/// where 20 seconds have passed since the last answer went out and the next request is not whole.
pub fn serve_browser<R: Clock, S: Service, I: Read, O: Write>(
    rt: &R,
    connection: &mut Connection,
    service: &mut S,
    reader: &mut I,
    writer: &mut O,
) -> io::Result<()>
    ensures done { OnOk result (IsDone (history connection.new)) }
    ensures read { (more : List ℕ)
        × Consumes (I.remaining reader.old) (I.remaining reader.new) more
        × ((history connection.new).received ≡ (history connection.old).received ++ more) }
    // What is written is the answers, in order.
    ensures written { (more : List ℕ)
        × Appends (O.contents writer.old) (O.contents writer.new) more
        × ((history connection.new).sent ≡ (history connection.old).sent ++ more) }
    ensures calls { Calls S.answers service.old service.new
        (history connection.old).calls (history connection.new).calls }
{
    let mut began = Instant::now(rt).ok();
    for _ in 0..u64::MAX {
        connection.advance(service);
        if connection.is_done() {
            writer.flush()?;
            return Ok(());
        }
        if !connection.wants_write() {
            if is_late(rt, &began) {
                return Err(ErrorKind::TimedOut.into());
            }
            connection.read_from(reader)?;
        } else if connection.write_to(writer)? == 0 {
            return Err(ErrorKind::WriteZero.into());
        } else {
            began = Instant::now(rt).ok();
        }
    }
    Err(ErrorKind::TimedOut.into())
}
