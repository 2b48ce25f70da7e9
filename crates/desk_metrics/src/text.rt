//! The text in which Prometheus reads the counts, in its exposition format 0.0.4.

ghost use Rattle.std.specs.Prelude.{◌≡◌, OnOk, flat_map};
ghost use Rattle.std.specs.Io.KnownBytes.{Appends};
ghost use Rattle.desk_metrics.specs.Metrics.{up_value, up_line, place_line, nodes_text, commands_text};
ghost use Rattle.desk_metrics.specs.Metrics.{bucket_line, latency_text, connections_text, refused_line, refused_text};
ghost use Rattle.desk_metrics.specs.Metrics.{samples_from, metrics_text};

use crate::counts::Counts;
use crate::latency::{Bucket, Latency};
use crate::status::StatusCount;
use desk_output::LinePart::{Number, Text};
use desk_output::write_parts;
use desk_types::Refusal;
use std::io::Write;

/// 1 where a node shows a place, and 0 where it is down.
fn up_value(place: &Option<u64>) -> u64
    ensures { result ≡ up_value place.now }
{
    match place {
        Some(_) => 1,
        None => 0,
    }
}

/// Writes whether a node is up.
fn write_up<W: Write>(writer: &mut W, node: u64, place: &Option<u64>) -> Result<(), Refusal>
    ensures { OnOk result
        (Appends (W.contents writer.old) (W.contents writer.new) (up_line node place.now)) }
{
    write_parts(
        writer,
        &[
            Text("desk_page_node_up{node=\""),
            Number(node),
            Text("\"} "),
            Number(up_value(place)),
            Text("\n"),
        ],
    )
}

/// Writes whether each node is up.
fn write_ups<W: Write>(writer: &mut W, places: &[Option<u64>]) -> Result<(), Refusal>
    ensures { OnOk result
        (Appends (W.contents writer.old) (W.contents writer.new) (samples_from up_line 0 places.now)) }
{
    for node in 0..places.len() {
        match write_up(writer, node as u64, &places[node]) {
            Ok(()) => {}
            Err(fault) => return Err(fault),
        }
    }
    Ok(())
}

/// Writes the place of a node, where it shows one.
fn write_place<W: Write>(writer: &mut W, node: u64, place: &Option<u64>) -> Result<(), Refusal>
    ensures { OnOk result
        (Appends (W.contents writer.old) (W.contents writer.new) (place_line node place.now)) }
{
    match place {
        Some(place) => write_parts(
            writer,
            &[
                Text("desk_page_node_place{node=\""),
                Number(node),
                Text("\"} "),
                Number(*place),
                Text("\n"),
            ],
        ),
        None => Ok(()),
    }
}

/// Writes the place of each node that shows one.
fn write_places<W: Write>(writer: &mut W, places: &[Option<u64>]) -> Result<(), Refusal>
    ensures { OnOk result
        (Appends (W.contents writer.old) (W.contents writer.new) (samples_from place_line 0 places.now)) }
{
    for node in 0..places.len() {
        match write_place(writer, node as u64, &places[node]) {
            Ok(()) => {}
            Err(fault) => return Err(fault),
        }
    }
    Ok(())
}

/// Writes which nodes are up, and their places.
fn write_nodes<W: Write>(writer: &mut W, places: &[Option<u64>]) -> Result<(), Refusal>
    ensures { OnOk result
        (Appends (W.contents writer.old) (W.contents writer.new) (nodes_text places.now)) }
{
    write_parts(
        writer,
        &[Text(
            "# HELP desk_page_node_up Whether a node showed its board when it was asked last.\n\
            # TYPE desk_page_node_up gauge\n",
        )],
    )?;
    write_ups(writer, places)?;
    write_parts(
        writer,
        &[Text(
            "# HELP desk_page_node_place The place in the log of the board that a node showed last.\n\
            # TYPE desk_page_node_place gauge\n",
        )],
    )?;
    write_places(writer, places)
}

/// Writes how many texts browsers sent for nodes, by what became of them.
fn write_commands<W: Write>(writer: &mut W, counts: &Counts) -> Result<(), Refusal>
    ensures { OnOk result
        (Appends (W.contents writer.old) (W.contents writer.new) (commands_text counts.now)) }
{
    write_parts(
        writer,
        &[
            Text(
                "# HELP desk_page_commands_total Requests to /command from this page, by outcome.\n\
                # TYPE desk_page_commands_total counter\n\
                desk_page_commands_total{outcome=\"done\"} ",
            ),
            Number(counts.done),
            Text("\ndesk_page_commands_total{outcome=\"refused\"} "),
            Number(counts.refused),
            Text("\ndesk_page_commands_total{outcome=\"unanswered\"} "),
            Number(counts.unanswered),
            Text("\ndesk_page_commands_total{outcome=\"busy\"} "),
            Number(counts.busy),
            Text("\n"),
        ],
    )
}

/// Writes how many texts took at most so long.
fn write_bucket<W: Write>(writer: &mut W, bucket: &Bucket) -> Result<(), Refusal>
    ensures { OnOk result
        (Appends (W.contents writer.old) (W.contents writer.new) (bucket_line bucket.now)) }
{
    write_parts(
        writer,
        &[
            Text("desk_page_command_duration_seconds_bucket{le=\""),
            Text(bucket.le),
            Text("\"} "),
            Number(bucket.count),
            Text("\n"),
        ],
    )
}

/// Writes the buckets.
fn write_buckets<W: Write>(writer: &mut W, buckets: &[Bucket]) -> Result<(), Refusal>
    ensures { OnOk result
        (Appends (W.contents writer.old) (W.contents writer.new) (flat_map bucket_line buckets.now)) }
{
    for bucket in buckets {
        match write_bucket(writer, bucket) {
            Ok(()) => {}
            Err(fault) => return Err(fault),
        }
    }
    Ok(())
}

/// Writes how long these texts took.
fn write_latency<W: Write>(writer: &mut W, latency: &Latency) -> Result<(), Refusal>
    ensures { OnOk result
        (Appends (W.contents writer.old) (W.contents writer.new) (latency_text latency.now)) }
{
    write_parts(
        writer,
        &[Text(
            "# HELP desk_page_command_duration_seconds How long requests to /command from this page took.\n\
            # TYPE desk_page_command_duration_seconds histogram\n",
        )],
    )?;
    write_buckets(writer, &latency.buckets)?;
    write_parts(
        writer,
        &[
            Text("desk_page_command_duration_seconds_bucket{le=\"+Inf\"} "),
            Number(latency.count),
            Text("\ndesk_page_command_duration_seconds_sum "),
            Number(latency.microseconds),
            Text("e-6\ndesk_page_command_duration_seconds_count "),
            Number(latency.count),
            Text("\n"),
        ],
    )
}

/// Writes how many connections of browsers are open.
fn write_connections<W: Write>(writer: &mut W, connections: u64) -> Result<(), Refusal>
    ensures { OnOk result
        (Appends (W.contents writer.old) (W.contents writer.new) (connections_text connections)) }
{
    write_parts(
        writer,
        &[
            Text(
                "# HELP desk_page_connections Connections of browsers that are open.\n\
                # TYPE desk_page_connections gauge\n\
                desk_page_connections ",
            ),
            Number(connections),
            Text("\n"),
        ],
    )
}

/// Writes how many requests were refused by a status.
fn write_status<W: Write>(writer: &mut W, row: &StatusCount) -> Result<(), Refusal>
    ensures { OnOk result
        (Appends (W.contents writer.old) (W.contents writer.new) (refused_line row.now)) }
{
    write_parts(
        writer,
        &[
            Text("desk_page_refused_requests_total{status=\""),
            Number(row.status as u64),
            Text("\"} "),
            Number(row.count),
            Text("\n"),
        ],
    )
}

/// Writes how many requests were refused.
fn write_statuses<W: Write>(writer: &mut W, rows: &[StatusCount]) -> Result<(), Refusal>
    ensures { OnOk result
        (Appends (W.contents writer.old) (W.contents writer.new) (flat_map refused_line rows.now)) }
{
    for row in rows {
        match write_status(writer, row) {
            Ok(()) => {}
            Err(fault) => return Err(fault),
        }
    }
    Ok(())
}

/// Writes how many requests were refused, by the status of the answer.
fn write_refused<W: Write>(writer: &mut W, rows: &[StatusCount]) -> Result<(), Refusal>
    ensures { OnOk result
        (Appends (W.contents writer.old) (W.contents writer.new) (refused_text rows.now)) }
{
    write_parts(
        writer,
        &[Text(
            "# HELP desk_page_refused_requests_total Requests that were refused, by the status of the answer.\n\
            # TYPE desk_page_refused_requests_total counter\n",
        )],
    )?;
    write_statuses(writer, rows)
}

/// Writes the metrics of a page's server: of each node, from node 0 on, whether it is up, and its place; and what was
/// counted. Err where a write fails, or takes no byte; a prefix of the text may be written then.
pub fn write_metrics<W: Write>(
    writer: &mut W,
    places: &[Option<u64>],
    counts: &Counts,
) -> Result<(), Refusal>
    ensures { OnOk result
        (Appends (W.contents writer.old) (W.contents writer.new) (metrics_text places.now counts.now)) }
{
    write_nodes(writer, places)?;
    write_commands(writer, counts)?;
    write_latency(writer, &counts.latency)?;
    write_connections(writer, counts.connections)?;
    write_refused(writer, &counts.statuses)
}
