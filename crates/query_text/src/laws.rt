//! The law of sessions whose names are written as they stand. It is a clause of a function that does nothing.

ghost use Rattle.query_text.specs.Spelled.{PlainSessionsAreTranscripts};

/// Where names are written as they stand in the file, a session writes the transcript of its lines.
pub fn plain_sessions_are_transcripts()
    ensures { PlainSessionsAreTranscripts }
{}
