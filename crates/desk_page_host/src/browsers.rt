//! The threads that serve browsers, each one connection after another.

use desk_browsers::{new_connection, refused_status, serve_browser};
use desk_connections::NodeRuntime;
use desk_lines::Handler;
use desk_page::PageService;
use std::alloc::Global;
use std::hash::RandomState;
use std::io::{self, ErrorKind, Read, Write};
use std::net::{TcpListener, TcpStream};
use std::sync::atomic::{AtomicBool, Ordering};
use std::thread;
use std::time::{Clock, Duration, Instant};

/// For how long a connection may bring nothing before a request begins, in milliseconds. So connections that ask
/// nothing hold no thread for long.
const IDLE_MILLISECONDS: u64 = 500;

/// For how many seconds a read inside a request, or a write, may wait.
const STEP_SECONDS: u64 = 10;

/// For how many seconds the answers to what came at once may wait, in all, for a browser that takes them slowly. So one
/// that takes a byte at a time holds no thread for long.
const ANSWER_SECONDS: u64 = 20;

/// So long is waited after the host refused a connection, for want of descriptors mostly.
const PAUSE_MILLISECONDS: u64 = 20;

/// What a browser sends, which may be silent longer inside a request than before one.
#[derive(Drop)]
struct BrowserInput<'a> {
    stream: &'a TcpStream,
    /// Whether bytes came since the last answer.
    is_asking: &'a AtomicBool,
}

impl<'a> BrowserInput<'a> {
    /// For how long the next read may wait.
    fn limit(&self) -> Duration {
        if self.is_asking.load(Ordering::SeqCst) {
            Duration::from_secs(STEP_SECONDS)
        } else {
            Duration::from_millis(IDLE_MILLISECONDS)
        }
    }
}

impl<'a> Read for BrowserInput<'a> {
    fn read(&mut self, buf: &mut [u8]) -> io::Result<usize> {
        self.stream.set_read_timeout(Some(self.limit()))?;
        let mut stream = self.stream;
        let result = stream.read(buf);
        self.is_asking.store(true, Ordering::SeqCst);
        result
    }
}

/// What a browser is sent.
#[derive(Drop)]
struct BrowserOutput<'a, R: Clock> {
    rt: &'a R,
    stream: &'a TcpStream,
    /// Whether bytes came since the last answer.
    is_asking: &'a AtomicBool,
    /// For how long writes have waited since bytes came.
    waited: Duration,
}

impl<'a, R: Clock> Write for BrowserOutput<'a, R> {
    fn write(&mut self, buf: &[u8]) -> io::Result<usize> {
        if self.is_asking.swap(false, Ordering::SeqCst) {
            self.waited = Duration::ZERO;
        }
        if self.waited >= Duration::from_secs(ANSWER_SECONDS) {
            return Err(ErrorKind::TimedOut.into());
        }
        let began = Instant::now(self.rt)?;
        let mut stream = self.stream;
        let count = stream.write(buf)?;
        self.waited = self.waited.saturating_add(began.elapsed(self.rt)?);
        Ok(count)
    }

    fn flush(&mut self) -> io::Result<()> {
        Ok(())
    }
}

/// Serves the requests of one connection until it is over.
fn serve_stream<D: Handler + Drop, R: NodeRuntime>(
    rt: &R,
    alloc: Global,
    keys: RandomState,
    service: &mut PageService<D, R>,
    stream: &TcpStream,
) {
    // each answer goes out at once; where the host can not do that, it goes out late
    let _ = stream.set_nodelay(true);
    let _ = stream.set_write_timeout(Some(Duration::from_secs(STEP_SECONDS)));
    let asking = AtomicBool::new(false);
    let is_asking = &asking;
    let mut connection = new_connection(alloc, keys);
    let mut input = BrowserInput { stream, is_asking };
    let mut output = BrowserOutput {
        rt,
        stream,
        is_asking,
        waited: Duration::ZERO,
    };
    service.open_connection();
    // what ends a connection ends no other
    let _ = serve_browser(rt, &mut connection, service, &mut input, &mut output);
    service.close_connection(refused_status(&connection));
}

/// Serves the browsers that come to a port, one connection after another, as long as the process.
pub(crate) fn serve_browsers<D: Handler + Drop, R: NodeRuntime>(
    rt: &R,
    alloc: Global,
    keys: RandomState,
    listener: &TcpListener,
    service: PageService<D, R>,
) {
    let mut service = service;
    for stream in listener.incoming() {
        match stream {
            Ok(stream) => serve_stream(rt, alloc, keys, &mut service, &stream),
            Err(_) => thread::sleep(rt, Duration::from_millis(PAUSE_MILLISECONDS)),
        }
    }
}
