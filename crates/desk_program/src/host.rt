//! The program between the standard streams of its host.

ghost use Rattle.std.specs.Prelude.{◌≡◌, ◌≤◌, Err, IfOk, IfErr};
ghost use Rattle.desk_options.specs.Host.{IsRunInRange};
ghost use Rattle.desk_options.specs.Hosts.{HasAllowedHosts};

use crate::ending::RunEnd;
use crate::run::run_words;
use crate::seed::drawn_seed;
use desk_lines::{WatchedReader, WatchedWriter};
use desk_options::{HostRun, OptionsFault, check_hosts_of, fault_status, given_words};
use desk_output::{CountedInput, REFUSED, print_unread};
use std::io::BufWriter;

/// The exit status of a run, or what needs files or sockets.
fn status_of(ran: Result<RunEnd, HostRun>) -> Result<u8, HostRun>
    ensures status { IfOk result (λ status. status ≤ REFUSED) }
    ensures host { IfErr result (λ run. ran ≡ Err run) }
{
    match ran {
        Ok(end) => Ok(end.status()),
        Err(run) => Err(run),
    }
}

/// Runs the program between the standard streams, or hands back why nothing was read.
fn run_between(host: &HostRuntime) -> Result<Result<u8, HostRun>, OptionsFault>
    ensures status { IfOk result (λ ran. IfOk ran (λ status. status ≤ REFUSED)) }
    ensures range { IfOk result (λ ran. IfErr ran IsRunInRange) }
{
    let given = given_words(host)?;
    let mut words = Vec::new(host.alloc());
    for word in &given {
        words.push(word.as_str())?;
    }
    let mut input = WatchedReader::new(CountedInput::new(host.stdin()));
    let Ok(output) = BufWriter::new(host.alloc(), host.stdout()) else {
        return Err(OptionsFault::WantOfMemory);
    };
    let mut output = WatchedWriter::new(output);
    let ran = run_words(
        host.alloc(),
        drawn_seed(host),
        words.as_slice(),
        &mut input,
        &mut output,
        &mut host.stderr(),
    );
    drop(output);
    print_unread(&mut host.stderr(), input.inner());
    Ok(status_of(ran))
}

/// Hands a run back, or refuses its hosts.
fn with_allowed_hosts(host: &HostRuntime, run: HostRun) -> Result<u8, HostRun>
    ensures status { IfOk result (λ status. status ≤ REFUSED) }
    ensures run { IfErr result (λ same. same ≡ run) }
    ensures hosts { IfErr result HasAllowedHosts }
{
    match check_hosts_of(host.alloc(), &run) {
        Ok(()) => Err(run),
        Err(refused) => Ok(fault_status(&mut host.stderr(), refused)),
    }
}

/// Does what the words after the program's name ask for, between the standard streams, and answers the exit status: 0,
/// 1 after a fault, or 2 for words that are refused and for a line that is no event. Or it hands back the run that
/// needs files or sockets, with nothing read or written. A word that is no text is reported, and so are hosts that may
/// not be given: that ends with 2. Words that can't be had, or a run for which there is no memory, are reported as
/// `WantOfMemory`, and end with 1. The replies to the lines of one read go out together, before the next read, so that
/// whoever types a line is answered at once; and after a fault those go out that came before it.
pub fn run_given(host: &HostRuntime) -> Result<u8, HostRun>
    ensures status { IfOk result (λ status. status ≤ REFUSED) }
    ensures range { IfErr result IsRunInRange }
    // The hosts of a run are as many as its nodes, each a host, and without a key on loopback.
    ensures hosts { IfErr result HasAllowedHosts }
{
    match run_between(host) {
        Ok(Ok(status)) => Ok(status),
        Ok(Err(run)) => with_allowed_hosts(host, run),
        Err(fault) => Ok(fault_status(&mut host.stderr(), fault)),
    }
}
