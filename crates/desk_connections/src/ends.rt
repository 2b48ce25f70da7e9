//! What ends the nodes of a process.

use desk_types::WantOfMemory;
use std::alloc::Global;
use std::io::{self, Input};
use std::sync::Arc;
use std::sync::atomic::{AtomicBool, Ordering};
use std::thread;
use std::thread::Threads;

/// Whether nodes are to end, which several threads see.
pub struct EndFlag {
    is_set: Arc<AtomicBool>,
}

// Written out, so that callers need not prove each part's drop.
impl Drop for EndFlag {
    fn drop(self) {
        let EndFlag { is_set: _ } = self;
    }
}

impl EndFlag {
    /// A flag that is not set. Err where memory is refused.
    pub fn new(alloc: Global) -> Result<EndFlag, WantOfMemory> {
        match Arc::new(alloc, AtomicBool::new(false)) {
            Ok(is_set) => Ok(EndFlag { is_set }),
            Err(_) => Err(WantOfMemory),
        }
    }

    /// The same flag, for another thread. Where that is refused, this one stays as it was.
    pub fn share(&self) -> Result<EndFlag, WantOfMemory> {
        match Arc::try_clone(&self.is_set) {
            Ok(is_set) => Ok(EndFlag { is_set }),
            Err(_) => Err(WantOfMemory),
        }
    }

    /// Tells the nodes to end: each timer that has this flag puts a stop within 20 milliseconds. It stays set.
    pub fn set(&self) {
        self.is_set.store(true, Ordering::SeqCst);
    }

    pub(crate) fn is_set(&self) -> bool {
        self.is_set.load(Ordering::SeqCst)
    }
}

/// Reads to the end of the standard input, or to a fault, and throws away what it brings.
fn read_to_end<R: Input>(rt: &R) {
    let mut reader = rt.reader();
    // A read that a signal interrupts is made again.
    let _ = io::copy(&mut reader, &mut io::sink());
}

/// Starts a thread that sets the flag once the standard input ends, or can not be read. Err where the host refuses the
/// thread: then nothing was read, and the flag is as it was.
pub fn end_with_input<R: Input + Threads + Copy + Send + Sync + Drop + 'static>(
    rt: &R,
    ends: EndFlag,
) -> Result<(), WantOfMemory>
where
    R::Reader: Send,
{
    let handle = *rt;
    let reading = thread::spawn(rt, move || {
        read_to_end(&handle);
        ends.set();
    });
    match reading {
        Ok(_) => Ok(()),
        Err(_) => Err(WantOfMemory),
    }
}
