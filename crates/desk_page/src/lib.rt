//! The live page of a desk: the board that was announced last, which workers share, and a service that answers browsers
//! with the page's files, with newer boards, and with the replies to their commands, and Prometheus with what was
//! counted.
#![tactic(auto)]

mod asks;
mod board;
mod board_line;
mod fields;
mod files;
mod group;
mod laws;
mod metrics;
mod query;
mod reported;
mod service;
mod shared;

pub use asks::{read_board, read_place};
pub use board_line::BoardLine;
pub use laws::{list_place, show_place};
pub use service::PageService;
pub use shared::{
    SharedPage, publish_board, publish_listed, publish_liveness, publish_nodes, published_place,
};
