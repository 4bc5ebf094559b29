//! Counts of what became of responses.

/// How often the response of a record could not be sent to its client, or was sent to it again, since the last such line.
#[derive(Clone, Copy)]
pub struct RecordCount<'a> {
    /// The name of the run.
    pub run: u64,
    /// When the line was made: RFC 3339, in UTC, with milliseconds.
    pub time: &'a str,
    /// The home server's name in the configuration.
    pub home: &'a str,
    /// The number of its lane.
    pub lane: u16,
    /// The number of the request in its lane. In a line its key is `record`.
    pub number: u64,
    /// How often: at least once.
    pub count: u64,
}

/// How often the response that an earlier run gave was sent again, since the last such line.
#[derive(Clone, Copy)]
pub struct AnswerCount<'a> {
    /// The name of the run that sent it again.
    pub run: u64,
    /// When the line was made: RFC 3339, in UTC, with milliseconds.
    pub time: &'a str,
    /// The name of the home server to which the request leads.
    pub home: &'a str,
    /// The number of its lane.
    pub lane: u16,
    /// The name of the run that answered.
    pub answer_run: u64,
    /// The number of the lane there.
    pub answer_lane: u16,
    /// The serial of the response in that lane.
    pub answer_serial: u64,
    /// How often: at least once.
    pub count: u64,
}
