//! Laws of headers.

ghost use Rattle.desk_peers.specs.Headers.{FramesBeginNoHeader, HeadersAreOne, HeadersAreWritten, OthersBeginNone};
ghost use Rattle.desk_peers.specs.Headers.{StreamsAreOne};

use desk_codec::laws::spellings;

/// What is true of all headers. It does nothing: its clauses are the laws.
pub fn headers()
    // Bytes of before have no header.
    ensures frames { FramesBeginNoHeader }
    // A connection's bytes say its header, and after that its packets.
    ensures one { HeadersAreOne }
    ensures reported { HeadersAreWritten }
    ensures streams { StreamsAreOne }
    // A node whose epochs have other places takes none of them.
    ensures others { OthersBeginNone }
{
    spellings();
}
