//! Lines to a group of three whose nodes answer by a script.

mod boards;
mod browsers;
mod script;
mod status;

use script::{Answer, is_given_up, is_reported};

const DONE: Answer = Some("{\"number\":1,\"ok\":\"cleared\",\"place\":1,\"session\":7}\n");

const TO_NODE_2: Answer = Some(
    "{\"node\":2,\"number\":1,\"refusal\":30,\"session\":7,\"view\":2}\n",
);

const TO_NODE_0: Answer = Some(
    "{\"node\":0,\"number\":1,\"refusal\":30,\"session\":7,\"view\":3}\n",
);

const TO_NODE_4: Answer = Some(
    "{\"node\":4,\"number\":1,\"refusal\":30,\"session\":7,\"view\":4}\n",
);

const TO_NODE_12: Answer = Some(
    "{\"node\":12,\"number\":1,\"refusal\":30,\"session\":7,\"view\":12}\n",
);

const WAITING: Answer = Some("{\"number\":1,\"refusal\":32,\"session\":7}\n");

const STOPPED: Answer = Some("{\"number\":1,\"refusal\":34,\"session\":7}\n");

const SHOW_STOPPED: Answer = Some("{\"refusal\":34}\n");

const NO_MEMORY: Answer = Some("{\"refusal\":40}\n");

const SILENT: Answer = None;

// What nodes answer to a line, in turn; which are asked; and the pauses between, in milliseconds.
const ROWS: &[(&[Answer], &[u8], &[u64])] = &[
    (&[DONE], &[0], &[]),
    (&[TO_NODE_2, DONE], &[0, 2], &[0]),
    (&[TO_NODE_2, TO_NODE_0, DONE], &[0, 2, 0], &[0, 0]),
    (&[TO_NODE_0, TO_NODE_0, DONE], &[0, 1, 0], &[20, 0]),
    (&[TO_NODE_4, TO_NODE_4, DONE], &[0, 1, 2], &[20, 40]),
    (&[TO_NODE_12, TO_NODE_12, DONE], &[0, 1, 2], &[20, 40]),
    (&[WAITING, WAITING, DONE], &[0, 1, 2], &[20, 40]),
    (&[STOPPED, STOPPED, DONE], &[0, 1, 2], &[20, 40]),
    (&[SHOW_STOPPED, SHOW_STOPPED, DONE], &[0, 1, 2], &[20, 40]),
    (&[NO_MEMORY, NO_MEMORY, DONE], &[0, 1, 2], &[20, 40]),
    (&[SILENT, SILENT, DONE], &[0, 1, 2], &[20, 40]),
    (
        &[SILENT, SILENT, SILENT, SILENT, SILENT, SILENT, SILENT, DONE],
        &[0, 1, 2, 0, 1, 2, 0, 1],
        &[20, 40, 80, 160, 320, 500, 500],
    ),
    (
        &[TO_NODE_2, TO_NODE_0, TO_NODE_2, TO_NODE_0, TO_NODE_2, DONE],
        &[0, 2, 0, 2, 0, 2],
        &[0, 0, 0, 20, 0],
    ),
];

#[test]
fn asks_again(rt: HostRuntime) {
    for (answers, asked, pauses) in ROWS {
        assert!(rt; is_reported(rt.alloc(), answers, asked, pauses));
    }
}

// Replies that no retry changes.
const FINAL: &[&str] = &[
    "{\"latest\":9,\"number\":1,\"refusal\":31,\"session\":7}\n",
    "{\"number\":1,\"refusal\":33,\"session\":7}\n",
    "{\"number\":1,\"refusal\":35,\"session\":7}\n",
    "{\"member\":\"do\",\"refusal\":3}\n",
    "{\"refusal\":1}\n",
    "{\"number\":1,\"place\":4,\"refusal\":33,\"session\":7}\n",
    "{\"incident\":\"a\",\"number\":1,\"place\":4,\"refusal\":36,\"session\":7}\n",
    "{\"incidents\":0,\"ok\":\"board\",\"place\":0,\"session\":7,\"units\":0}\n",
    "{\"calls\":[],\"incident\":\"\\\"refusal\\\":40\"}\n",
    "40\n",
];

#[test]
fn tells_final_replies(rt: HostRuntime) {
    for reply in FINAL {
        assert!(rt; is_reported(rt.alloc(), &[Some(*reply)], &[0], &[]));
    }
}

#[test]
fn gives_up(rt: HostRuntime) {
    assert!(rt; is_given_up(rt.alloc(), &[SILENT, WAITING, SILENT]));
}
