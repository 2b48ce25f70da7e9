//! How many fields the head of a browser's request may have.

use bytes::Bytes;
use desk_browsers::{new_connection, refused_status, serve_browser};
use http::Request;
use http_server::{Response, Service};
use std::alloc::{AllocError, Global};
use std::hash::RandomState;

// How many fields stand after the host, and the status by which the head is refused.
const ROWS: &[(usize, Option<u16>)] = &[(0, None), (63, None), (64, Some(431)), (80, Some(431))];

/// Counts the requests that come to it.
#[derive(Drop)]
struct Requests {
    count: u64,
}

impl Service for Requests {
    ghost answers = { λ old request response new. Unit {0} };

    fn call(&mut self, _: &Request<Bytes>, _: &mut Response) -> Result<(), AllocError> {
        self.count = self.count.saturating_add(1);
        Ok(())
    }
}

/// A request with so many fields after its host.
fn request(alloc: Global, fields: usize) -> Result<Vec<u8>, AllocError> {
    let mut text = Vec::from_slice(alloc, b"GET / HTTP/1.1\r\nHost: 127.0.0.1\r\n")?;
    for _ in 0..fields {
        text.extend_from_slice(b"x: y\r\n")?;
    }
    text.extend_from_slice(b"\r\n")?;
    Ok(text)
}

/// How many of the requests come to the service, and by which status one is refused.
fn outcome(rt: &HostRuntime, keys: RandomState, text: &[u8]) -> (u64, Option<u16>) {
    let mut connection = new_connection(rt.alloc(), keys);
    let mut requests = Requests { count: 0 };
    let mut input = text;
    let mut output = Vec::new(rt.alloc());
    // what is answered is not looked at
    let _ = serve_browser(rt, &mut connection, &mut requests, &mut input, &mut output);
    (requests.count, refused_status(&connection))
}

/// Whether a request with so many fields is refused by this status, and comes to the service where there is none.
fn is_so(rt: &HostRuntime, fields: usize, refused: Option<u16>) -> bool {
    let Ok(keys) = RandomState::new(rt) else {
        return false;
    };
    let Ok(text) = request(rt.alloc(), fields) else {
        return false;
    };
    let count = if refused.is_some() { 0 } else { 1 };
    outcome(rt, keys, text.as_slice()) == (count, refused)
}

#[test]
fn heads_have_64_fields(rt: HostRuntime) {
    for (fields, refused) in ROWS {
        assert!(rt; is_so(&rt, *fields, *refused));
    }
}
